ghost use Rattle.std.specs.Prelude.{◌≡◌, ◌+◌, ◌^◌, ◌<◌};
ghost use Rattle.ledger.specs.Lines.{plus};

use std::ops::Add;

// How a block ended; Open where it was closed unfinished.
#[derive(Clone, Copy, PartialEq, Eq, Debug)]
pub enum Outcome {
    Open,
    Settled,
    Spent,
    Clashed,
}

// A line of the ledger: what a closed end told.
// Stays: the side is a number, as whoever makes a note hands it in: an enum would ask more.
#[derive(Clone, Copy, PartialEq, Eq, Debug)]
pub struct Line {
    pub block: u32,
    pub side: u8,
    pub raw: u32,
    pub leak: u32,
    pub outcome: Outcome,
}

// Raw bits and leak over settled lines.
#[derive(Clone, Copy, PartialEq, Eq, Debug)]
pub struct Totals {
    pub raw: u64,
    pub leak: u64,
}

impl Add for Totals {
    type Output = Totals;

    ghost can_add = { λ a b. (a.raw + b.raw < 2 ^ 64) × (a.leak + b.leak < 2 ^ 64) };

    ghost add_gives = { λ a b r. r ≡ plus a b };

    fn add(self, other: Totals) -> Totals {
        Totals {
            raw: self.raw + other.raw,
            leak: self.leak + other.leak,
        }
    }
}
