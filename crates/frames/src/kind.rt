// What a frame tells.
#[derive(Clone, Copy, PartialEq, Eq, Debug)]
pub enum Kind {
    Syndrome,
    Disclosure,
}

// A number that stands for no kind of frame.
// Stays: an error of its own, whose name says what the number is not of.
#[derive(Clone, Copy, PartialEq, Eq, Debug)]
pub struct UnknownKind(pub u8);
