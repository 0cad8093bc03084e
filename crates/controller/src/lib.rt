#![tactic(auto)]

// What the link controller, a C program, calls through controller_c: numbers and byte slices in, a reply of plain numbers out.
mod frame;
mod matrix;
mod reply;
mod run;

pub use frame::reconcile_read_frame;
pub use matrix::{reconcile_admit_matrix, reconcile_syndrome};
pub use reply::{FrameReply, Reply};
