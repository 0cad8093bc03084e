ghost use Rattle.std.specs.Prelude.{◌≡◌, ℕ, ◌<◌, ◌≤◌, List, length, IfOk, Err};
ghost use Rattle.frames.specs.Numbers.{side_number};
ghost use Rattle.frames.specs.Shape.{WellFormed};
ghost use Rattle.frames.specs.Format.{frame_bytes};
ghost use Rattle.frames.specs.Reading.{HeadThen, read_shape, Reads};
ghost use Rattle.frames.specs.Of.{shape_of, reading_of};

use crate::frame::{Frame, HEAD};
use crate::kind::Kind;
use crate::refusal::FrameRefusal;
use crate::side::Side;
use codes::sizes_are_sound;
use runs::{Run, bytes_for, last_run_fault, run_fault};

// The byte at fault in a head that is cut: what is there is looked at first.
#[tactic(auto, using(crate::proofs::Faults::cut))]
fn cut_head_fault(bytes: &[u8]) -> usize
    requires { length bytes.now < 8 }
    ensures { (n m : ℕ) → read_shape n m bytes.now ≡ Err (FrameRefusal.WrongByte result) }
{
    match bytes {
        [kind, ..] if Kind::try_from(*kind).is_err() => 0,
        [_, side, ..] if Side::try_from(*side).is_err() => 1,
        _ => bytes.len(),
    }
}

// Behind the head of a syndrome stand m bits and nothing more.
// Stays: side and block are two plain fields of a frame; a struct of the two would be no plainer.
fn read_syndrome<'a>(
    m: usize,
    side: Side,
    block: u32,
    body: &'a [u8],
) -> Result<Frame<'a>, FrameRefusal>
    ensures { (n : ℕ) (bytes : List ℕ) → HeadThen 1 (side_number side) block 0 body.now bytes → reading_of result ≡ read_shape n m bytes }
{
    if let Some(q) = last_run_fault(m, body) {
        return Err(FrameRefusal::WrongByte(HEAD + q));
    }
    let bits = Run::new(m, body);
    Ok(Frame::Syndrome { side, block, bits })
}

// Behind the head of a disclosure stand the map of n positions, a bit for each of its ones, and nothing more.
fn read_disclosure<'a>(
    n: usize,
    side: Side,
    block: u32,
    round: u16,
    body: &'a [u8],
) -> Result<Frame<'a>, FrameRefusal>
    requires { 1 ≤ round }
    ensures { (m : ℕ) (bytes : List ℕ) → HeadThen 2 (side_number side) block round body.now bytes → reading_of result ≡ read_shape n m bytes }
{
    if let Some(q) = run_fault(n, body) {
        return Err(FrameRefusal::WrongByte(HEAD + q));
    }
    let map_bytes = bytes_for(n);
    let (front, rest) = body.split_at(map_bytes);
    let map = Run::new(n, front);
    let ones = map.ones();
    if let Some(q) = last_run_fault(ones, rest) {
        return Err(FrameRefusal::WrongByte(HEAD + map_bytes + q));
    }
    let values = Run::new(ones, rest);
    Ok(Frame::Disclosure {
        side,
        block,
        round,
        map,
        values,
    })
}

// Reads a frame of a matrix with n positions and m checks, or tells the first byte at fault.
#[tactic(auto, using(crate::proofs::Faults::head_faults))]
pub fn read<'a>(n: usize, m: usize, bytes: &'a [u8]) -> Result<Frame<'a>, FrameRefusal>
    ensures value { Reads n m bytes.now (reading_of result) }
    ensures back { IfOk result (λ frame. frame_bytes (shape_of frame) ≡ bytes.now) }
    ensures formed { IfOk result (λ frame. WellFormed n m (shape_of frame)) }
{
    if !sizes_are_sound(n, m) {
        return Err(FrameRefusal::WrongSize);
    }

    // Stays: a rule of the project, a slice pattern of eight named bytes and the rest.
    let [kind, side, b0, b1, b2, b3, r0, r1, body @ ..] = bytes else {
        return Err(FrameRefusal::WrongByte(cut_head_fault(bytes)));
    };
    let kind = Kind::try_from(*kind).map_err(|_| FrameRefusal::WrongByte(0))?;
    let side = Side::try_from(*side).map_err(|_| FrameRefusal::WrongByte(1))?;
    let block = u32::from_be_bytes([*b0, *b1, *b2, *b3]);
    let round = u16::from_be_bytes([*r0, *r1]);

    // Round 0 publishes the syndrome, and any later one discloses.
    match (kind, round) {
        (Kind::Syndrome, 0) => read_syndrome(m, side, block, body),
        (Kind::Disclosure, 1..) => read_disclosure(n, side, block, round, body),
        _ => Err(FrameRefusal::WrongByte(6)),
    }
}
