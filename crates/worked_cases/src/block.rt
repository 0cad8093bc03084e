use ledger::Line;

// How an end finished: the round that it reached, and what its close told.
#[derive(Clone, Copy)]
pub struct Ending {
    pub round: u16,
    pub told: Line,
}
