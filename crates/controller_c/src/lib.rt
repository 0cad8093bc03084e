#![tactic(auto)]

// What C links: the controller's functions under their C names, each with the library's clause.
// Stays: the functions stand here again, as what C links is a crate of its own.
ghost use Rattle.controller.specs.Frames.{FrameReplies};
ghost use Rattle.controller.specs.Replies.{AdmitReplies, SyndromeReplies};

use controller::{FrameReply, Reply};

#[unsafe(no_mangle)]
pub extern "C" fn reconcile_admit_matrix(n: usize, m: usize, positions: &[u8], ends: &[u8]) -> Reply
    ensures { AdmitReplies n m positions.now ends.now result }
{
    controller::reconcile_admit_matrix(n, m, positions, ends)
}

#[unsafe(no_mangle)]
pub extern "C" fn reconcile_syndrome(
    n: usize,
    m: usize,
    positions: &[u8],
    ends: &[u8],
    key: &[u8],
    out: &mut [u8],
) -> Reply
    ensures { SyndromeReplies n m positions.now ends.now key.now out.old out.new result }
{
    controller::reconcile_syndrome(n, m, positions, ends, key, out)
}

#[unsafe(no_mangle)]
pub extern "C" fn reconcile_read_frame(n: usize, m: usize, bytes: &[u8]) -> FrameReply
    ensures { FrameReplies n m bytes.now result }
{
    controller::reconcile_read_frame(n, m, bytes)
}
