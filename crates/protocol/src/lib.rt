#![tactic(auto)]

// The protocol of an end: its plain types, in specs/ the model of the calls, of runs, and the guarantee, proved.
mod guarantee;
mod plan;
mod terms;

pub use frames::Side;
pub use guarantee::{
    frames_stay_the_same, guarantee_stands, refusals_change_nothing, turns_name_exactly,
};
pub use ledger::Outcome;
pub use plan::Plan;
pub use terms::{Hearing, Stage, Terms, Turning};
