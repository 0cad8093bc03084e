// The end that a frame comes from.
#[derive(Clone, Copy, PartialEq, Eq, Debug)]
pub enum Side {
    Alice,
    Bob,
}

// A number that stands for no side.
// Stays: an error of its own, whose name says what the number is not of.
#[derive(Clone, Copy, PartialEq, Eq, Debug)]
pub struct UnknownSide(pub u8);
