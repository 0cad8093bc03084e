ghost use Rattle.std.specs.Prelude.{◌≡◌, length, IfOk, sum};
ghost use Rattle.runs.specs.Bits.{packed_to};
ghost use Rattle.frames.specs.Numbers.{kind_number, side_number};
ghost use Rattle.frames.specs.Format.{head_bytes, frame_bytes};
ghost use Rattle.frames.specs.Reading.{ReadAtChecks, ReadAtWidth};
ghost use Rattle.frames.specs.Writing.{laid, room_for, map_of, gathered, in_round, key_bit, syndrome_of, disclosure_of};

use crate::frame::HEAD;
use crate::kind::Kind;
use crate::refusal::FrameRefusal;
use crate::round::Round;
use crate::side::Side;
use runs::{bytes_for, pack, pack_all};

fn write_head(kind: Kind, side: Side, block: u32, round: u16, out: &mut [u8])
    requires { length out.old ≡ 8 }
    ensures { out.new ≡ head_bytes (kind_number kind) (side_number side) block round }
{
    let [b0, b1, b2, b3] = block.to_be_bytes();
    let [r0, r1] = round.to_be_bytes();
    out.copy_from_slice(&[u8::from(kind), u8::from(side), b0, b1, b2, b3, r0, r1]);
}

// Writes the frame that publishes a syndrome, one bit to a byte (any byte but 0 is 1), and tells its length.
#[tactic(auto, using(crate::proofs::Written::syndromes))]
pub fn write_syndrome(
    side: Side,
    block: u32,
    bits: &[u8],
    out: &mut [u8],
) -> Result<usize, FrameRefusal>
    ensures value { result ≡ room_for (frame_bytes (syndrome_of (side_number side) block bits.now)) out.old }
    ensures buffer { out.new ≡ laid (frame_bytes (syndrome_of (side_number side) block bits.now)) out.old }
    ensures back { IfOk result (ReadAtChecks (length bits.now) (syndrome_of (side_number side) block bits.now) out.new) }
{
    let needed = HEAD + bytes_for(bits.len());
    if out.len() < needed {
        return Err(FrameRefusal::ShortBuffer(needed));
    }
    write_head(Kind::Syndrome, side, block, 0, &mut out[..HEAD]);
    pack(bits, &mut out[HEAD..needed]);
    Ok(needed)
}

// How many positions are disclosed in the round.
#[tactic(auto, using(crate::proofs::Gathered::counted))]
fn count_in_round(rounds: &[u16], round: u16) -> usize
    ensures { result ≡ sum (map_of (in_round round rounds.now) (length rounds.now)) }
{
    rounds.iter().filter(|r| **r == round).count()
}

// The map has 1 where a position's round is this one.
fn pack_map(rounds: &[u16], round: u16, out: &mut [u8])
    ensures { out.new ≡ packed_to (length out.old) (map_of (in_round round rounds.now) (length rounds.now)) }
{
    pack_all(rounds.iter().map(|r| u8::from(*r == round)), out);
}

// A key's bits at the positions that are disclosed in the round, and 0 past the key's end.
fn pack_values(rounds: &[u16], round: u16, key: &[u8], out: &mut [u8])
    ensures { out.new ≡ packed_to (length out.old) (gathered (in_round round rounds.now) (key_bit key.now) (length rounds.now)) }
{
    let disclosed = rounds.iter().enumerate().filter(|(_, r)| **r == round);
    pack_all(
        disclosed.map(|(i, _)| key.get(i).copied().unwrap_or(0)),
        out,
    );
}

// Writes the frame that discloses a round: the positions that have it among their rounds, and the key's bits there.
// Any byte of the key but 0 is 1, and past its end 0.
#[tactic(auto, using(crate::proofs::Written::disclosures))]
pub fn write_disclosure(
    side: Side,
    block: u32,
    round: Round,
    rounds: &[u16],
    key: &[u8],
    out: &mut [u8],
) -> Result<usize, FrameRefusal>
    ensures value { result ≡ room_for (frame_bytes (disclosure_of (side_number side) block round.number rounds.now key.now)) out.old }
    ensures buffer { out.new ≡ laid (frame_bytes (disclosure_of (side_number side) block round.number rounds.now key.now)) out.old }
    ensures back { IfOk result (ReadAtWidth (length rounds.now) (disclosure_of (side_number side) block round.number rounds.now key.now) out.new) }
{
    let number = round.number();
    let values = HEAD + bytes_for(rounds.len());
    let needed = values + bytes_for(count_in_round(rounds, number));
    if out.len() < needed {
        return Err(FrameRefusal::ShortBuffer(needed));
    }
    write_head(Kind::Disclosure, side, block, number, &mut out[..HEAD]);
    pack_map(rounds, number, &mut out[HEAD..values]);
    pack_values(rounds, number, key, &mut out[values..needed]);
    Ok(needed)
}
