#![tactic(auto)]

// Decoders: a question about a matrix, the test of a pattern, and what every decoder promises.
mod decoder;
mod fit;
mod inquiry;
mod pile;
mod refusal;
mod repeats;
mod state;

pub use decoder::Decoder;
pub use fit::checks_fit;
pub use inquiry::Inquiry;
pub use pile::Pile;
pub use refusal::DecoderRefusal;
pub use repeats::asks_twice;
pub use state::State;
