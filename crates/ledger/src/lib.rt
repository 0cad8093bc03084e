#![tactic(auto)]

// The account of closed blocks: a note that must be booked, and the ledger that it is booked in.
mod booking;
mod ledger;
mod line;
mod note;

pub use booking::{book_in, joint_totals};
pub use ledger::Ledger;
pub use line::{Line, Outcome, Totals};
pub use note::{FullLedger, Note};
