#![tactic(auto)]

// Worked cases of propagation, each computed from its definition.
mod worked;

pub use worked::{Worked, finds_later, finds_one, stops_short};
