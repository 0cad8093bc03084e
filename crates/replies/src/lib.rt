#![tactic(auto)]

// The kinds of positions, and why each of an end's six calls is refused.
mod kind;
mod refusal;

pub use kind::{Kind, UnknownKind};
pub use refusal::{CloseRefusal, HearRefusal, KeyRefusal, OpenRefusal, SayRefusal, TurnRefusal};
