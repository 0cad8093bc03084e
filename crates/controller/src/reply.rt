ghost use Rattle.std.specs.Prelude.{◌≡◌};
ghost use Rattle.controller.specs.Replies.{reply, outcome_told};

use refusals::{Refusal, Told};

// What a call answers: number 0 where it is accepted, else the refusal's number and place.
#[repr(C)]
#[derive(Clone, Copy)]
pub struct Reply {
    pub number: u32,
    pub place: usize,
}

// What bytes are read as: number 0 and the frame, or the refusal and zeros. The first run is the syndrome or the map, the
// second the values of a disclosure; each has the byte at which it begins and its count of bits.
// Stays: kinds and sides are plain numbers, and what there is not is 0, as C reads them.
#[repr(C)]
#[derive(Clone, Copy, Default)]
pub struct FrameReply {
    pub number: u32,
    pub place: usize,
    pub kind: u8,
    pub side: u8,
    pub round: u16,
    pub block: u32,
    pub first_at: usize,
    pub first_bits: usize,
    pub second_at: usize,
    pub second_bits: usize,
}

impl<E: Refusal + Drop> From<Result<(), E>> for Reply {
    ghost from_gives = { λ outcome r. r ≡ reply (outcome_told E.tells outcome) };

    fn from(outcome: Result<(), E>) -> Reply {
        let told = match outcome {
            Ok(()) => Told {
                number: 0,
                place: 0,
            },
            Err(refusal) => refusal.told(),
        };
        Reply {
            number: u32::from(told.number),
            place: told.place,
        }
    }
}
