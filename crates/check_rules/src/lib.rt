#![tactic(auto)]

// Check rules: what a check sends to its positions.
mod class;
mod offset;
mod refusal;
mod rule;
mod table;

pub use offset::{LowReply, Lows, OffsetRule};
pub use refusal::{TableRefusal, TableTold};
pub use rule::CheckRule;
pub use table::{Sums, TableRule};
