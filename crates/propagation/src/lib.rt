#![tactic(auto)]

// Belief propagation over any check rule.
mod answer;
mod check;
mod course;
mod decoder;

pub use decoder::Propagation;
