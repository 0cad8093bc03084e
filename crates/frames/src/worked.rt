ghost use Rattle.std.specs.Prelude.{◌≡◌, [], ◌∷◌};

use crate::reading::read;
use crate::refusal::FrameRefusal;
use crate::round::Round;
use crate::side::Side;
use crate::writing::{write_disclosure, write_syndrome};

// Alice's syndrome 010 in block 7.
#[tactic(auto, unfolding(crate::specs::Format::frame_bytes, runs::specs::Bits::packed_to))]
pub fn worked_syndrome() -> [u8; 9]
    ensures { result ≡ 0x01 ∷ 0x00 ∷ 0x00 ∷ 0x00 ∷ 0x00 ∷ 0x07 ∷ 0x00 ∷ 0x00 ∷ 0x40 ∷ [] }
{
    let mut out = [0u8; 9];
    let _ = write_syndrome(Side::Alice, 7, &[0, 1, 0], &mut out);
    out
}

// Of Alice's key 101100 in block 7, position 3 in round 1.
#[tactic(auto, unfolding(crate::specs::Format::frame_bytes, crate::specs::Writing::map_of, crate::specs::Writing::gathered, runs::specs::Bits::packed_to))]
pub fn worked_disclosure() -> [u8; 10]
    ensures { result ≡ 0x02 ∷ 0x00 ∷ 0x00 ∷ 0x00 ∷ 0x00 ∷ 0x07 ∷ 0x00 ∷ 0x01 ∷ 0x10 ∷ 0x80 ∷ [] }
{
    let mut out = [0u8; 10];
    if let Some(round) = Round::new(1) {
        let _ = write_disclosure(
            Side::Alice,
            7,
            round,
            &[0, 0, 0, 1, 0, 0],
            &[1, 0, 1, 1, 0, 0],
            &mut out,
        );
    }
    out
}

// Alice's syndrome with an unused bit set: its last byte is at fault.
#[tactic(auto, unfolding(crate::specs::Reading::read_shape, crate::specs::Reading::right_byte, runs::specs::Bits::unpacked))]
pub fn worked_refusal() -> FrameRefusal
    ensures { result ≡ FrameRefusal.WrongByte 8 }
{
    match read(
        6,
        3,
        &[0x01, 0x00, 0x00, 0x00, 0x00, 0x07, 0x00, 0x00, 0x41],
    ) {
        Ok(_) => FrameRefusal::WrongSize,
        Err(refusal) => refusal,
    }
}
