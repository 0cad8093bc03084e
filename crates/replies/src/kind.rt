// What a position holds: a sifted bit, a bit of the end's own random source, or 0.
#[derive(Clone, Copy, PartialEq, Eq, Debug)]
pub enum Kind {
    Raw,
    Punctured,
    Shortened,
}

// A number that no kind has.
// Stays: an error of its own, whose name says what the number is not of.
#[derive(Clone, Copy, PartialEq, Eq, Debug)]
pub struct UnknownKind(pub u8);

mod methods;
