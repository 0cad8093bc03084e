ghost use Rattle.codes.specs.Refusals.{matrix_told, syndrome_told, call_told};

use super::{CallRefusal, MatrixRefusal, SyndromeRefusal};
use refusals::{Refusal, Told};

impl Refusal for MatrixRefusal {
    ghost tells = { matrix_told };

    fn told(&self) -> Told {
        let (number, place) = match *self {
            MatrixRefusal::WrongSize => (1, 0),
            MatrixRefusal::WrongCheck(k) => (2, k),
            MatrixRefusal::WrongEntry(j) => (3, j),
            MatrixRefusal::WrongPosition(i) => (4, i),
        };
        Told { number, place }
    }
}

impl Refusal for SyndromeRefusal {
    ghost tells = { syndrome_told };

    fn told(&self) -> Told {
        let (number, place) = match *self {
            SyndromeRefusal::WrongKey(i) => (9, i),
            SyndromeRefusal::ShortBuffer(needed) => (12, needed),
        };
        Told { number, place }
    }
}

impl Refusal for CallRefusal {
    ghost tells = { call_told };

    fn told(&self) -> Told {
        match self {
            CallRefusal::Matrix(refusal) => refusal.told(),
            CallRefusal::Syndrome(refusal) => refusal.told(),
        }
    }
}

impl From<MatrixRefusal> for CallRefusal {
    ghost use Rattle.std.specs.Prelude.{◌≡◌};
    ghost use Rattle.codes.specs.declared.refusal.CallRefusal.TheVariants.{Matrix};

    ghost from_gives = { λ e r. r ≡ Matrix e };

    fn from(fault: MatrixRefusal) -> CallRefusal {
        CallRefusal::Matrix(fault)
    }
}

impl From<SyndromeRefusal> for CallRefusal {
    ghost use Rattle.std.specs.Prelude.{◌≡◌};
    ghost use Rattle.codes.specs.declared.refusal.CallRefusal.TheVariants.{Syndrome};

    ghost from_gives = { λ e r. r ≡ Syndrome e };

    fn from(fault: SyndromeRefusal) -> CallRefusal {
        CallRefusal::Syndrome(fault)
    }
}
