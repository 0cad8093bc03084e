use crate::side::Side;
use runs::Run;

// How many bytes the head of a frame takes: kind, side, block and round.
pub const HEAD: usize = 8;

// What a frame says; its runs of bits are parts of the bytes that it was read from.
// Stays: a rule of the project, an enum with borrowed parts.
#[derive(Clone, Copy)]
pub enum Frame<'a> {
    Syndrome {
        side: Side,
        block: u32,
        bits: Run<'a>,
    },
    Disclosure {
        side: Side,
        block: u32,
        round: u16,
        map: Run<'a>,
        values: Run<'a>,
    },
}
