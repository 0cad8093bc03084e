#![tactic(auto)]

// Bit flipping: a decoder that turns one position at a time.
mod choice;
mod confidence;
mod counts;
mod decoder;
mod front;
mod pattern;
mod worked;

pub use decoder::Flipping;
pub use worked::worked_case;
