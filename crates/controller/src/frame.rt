ghost use Rattle.std.specs.Prelude.{◌≡◌};
ghost use Rattle.frames.specs.Of.{shape_of};
ghost use Rattle.controller.specs.Frames.{FrameReplies, shown, refused};

use crate::reply::FrameReply;
use frames::{Frame, FrameRefusal, HEAD, Kind, read};
use refusals::Refusal;
use runs::bytes_for;

impl<'a> From<Frame<'a>> for FrameReply {
    ghost from_gives = { λ frame r. r ≡ shown (shape_of frame) };

    fn from(frame: Frame<'a>) -> FrameReply {
        match frame {
            Frame::Syndrome { side, block, bits } => FrameReply {
                kind: u8::from(Kind::Syndrome),
                side: u8::from(side),
                block,
                first_at: HEAD,
                first_bits: bits.len(),
                ..FrameReply::default()
            },
            Frame::Disclosure {
                side,
                block,
                round,
                map,
                values,
            } => FrameReply {
                kind: u8::from(Kind::Disclosure),
                side: u8::from(side),
                round,
                block,
                first_at: HEAD,
                first_bits: map.len(),
                second_at: HEAD + bytes_for(map.len()),
                second_bits: values.len(),
                ..FrameReply::default()
            },
        }
    }
}

impl From<FrameRefusal> for FrameReply {
    ghost from_gives = { λ refusal r. r ≡ refused refusal };

    fn from(refusal: FrameRefusal) -> FrameReply {
        FrameReply {
            number: u32::from(refusal.number()),
            place: refusal.place(),
            ..FrameReply::default()
        }
    }
}

// Reads a frame of a matrix with `n` positions and `m` checks.
pub fn reconcile_read_frame(n: usize, m: usize, bytes: &[u8]) -> FrameReply
    ensures { FrameReplies n m bytes.now result }
{
    match read(n, m, bytes) {
        Ok(frame) => FrameReply::from(frame),
        Err(refusal) => FrameReply::from(refusal),
    }
}
