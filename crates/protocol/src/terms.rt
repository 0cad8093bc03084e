use ledger::Outcome;

// What is fixed of an end when it opens.
// Stays: the side is a number, a rule of the project for plans, of which this is a part.
#[derive(Clone, Copy)]
pub struct Terms {
    pub block: u32,
    pub side: u8,
    pub matrix: u32,
    pub width: usize,
    pub checks: usize,
    pub entries: usize,
    pub class: u8,
    pub step: usize,
    pub cap: usize,
}

// What changes from call to call.
#[derive(Clone, Copy)]
pub struct Stage {
    pub round: u16,
    pub named: usize,
    pub heard: bool,
    pub outcome: Outcome,
}

// What hear answers: the present round's first frame, or one heard before.
#[derive(Clone, Copy, PartialEq, Eq, Debug)]
pub enum Hearing {
    Fresh,
    Repeat,
}

// What turn answers; Named tells how many positions it named.
#[derive(Clone, Copy, PartialEq, Eq, Debug)]
pub enum Turning {
    Settled,
    Clashed,
    Spent,
    Named(usize),
}
