ghost use Rattle.std.specs.Prelude.{length};
ghost use Rattle.codes.specs.Admission.{Admissible};

// Runs that are a matrix, lent: no caller tests them again.
#[derive(Clone, Copy)]
pub(crate) struct Lent<'a> {
    pub(crate) width: usize,
    pub(crate) positions: &'a [u16],
    pub(crate) ends: &'a [u16],
    ghost sound: { Admissible width (length ends.now) positions.now ends.now },
}

mod methods;
