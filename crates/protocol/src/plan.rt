// The plan of a block for one end.
// Stays: side and kinds are numbers as they were handed in, so that a wrong one can be said, and is refused.
// The kinds are lent: the ends of a block share one run of them, and a refused open has nothing to give back.
#[derive(Clone, Copy)]
pub struct Plan<'a> {
    pub block: u32,
    pub side: u8,
    pub matrix: u32,
    pub kinds: &'a [u8],
    pub class: u8,
    pub step: usize,
    pub cap: usize,
}

mod methods;
