ghost use Rattle.std.specs.Prelude.{length};
ghost use Rattle.codes.specs.Admission.{Admissible};

// An admitted parity-check matrix: its runs are sound, so no caller tests them again.
// Stays: one run of entries and one of ends, a rule of the project, as they were handed in.
#[derive(Drop)]
pub struct Matrix {
    number: u32,
    width: usize,
    positions: Vec<u16>,
    ends: Vec<u16>,
    ghost sound: { Admissible width (length ends.items) positions.items ends.items },
}

mod methods;
