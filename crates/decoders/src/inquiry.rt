use crate::state::State;
use codes::Matrix;

// What a call asks: a difference byte for each check of a matrix, a state for each position, an error class in percent.
#[derive(Clone, Copy)]
pub struct Inquiry<'a> {
    pub matrix: &'a Matrix,
    pub difference: &'a [u8],
    pub states: &'a [State],
    pub q: u8,
}

mod methods;
