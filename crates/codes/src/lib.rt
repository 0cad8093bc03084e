#![tactic(auto)]

// Parity-check matrices: what tells a bit, one parity, admission and the syndrome.
mod admission;
mod bits;
mod lent;
mod matrix;
mod refusal;
mod syndrome;

pub use admission::{
    MOST_CHECKS, MOST_ENTRIES, MOST_POSITIONS, admit_runs, one_refusal_is_due, sizes_are_sound,
};
pub use bits::{TellsBit, parity};
pub use matrix::Matrix;
pub use refusal::{CallRefusal, MatrixRefusal, SyndromeRefusal};
pub use syndrome::{add_word, clear_key, syndrome_of};
