#![tactic(auto)]

// Beliefs: what passes between positions and checks, whatever number holds it.
mod belief;
mod bounds;

pub use belief::Belief;
pub use bounds::{higher, hold, lower, with_sign};
