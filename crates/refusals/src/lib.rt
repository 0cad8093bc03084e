#![tactic(auto)]

// What every refusal tells: its number, and the place at fault.
ghost use Rattle.std.specs.Prelude.{◌≡◌, Some};
ghost use Rattle.refusals.specs.Told.{told_text};

use std::fmt;

// The number says why, the place where.
// Stays: a place of 0 stands for none, a rule of the project, as refusals are told by two numbers.
#[derive(Clone, Copy, PartialEq, Eq, Debug)]
pub struct Told {
    pub number: u8,
    pub place: usize,
}

impl fmt::Display for Told {
    ghost output = { λ t. Some (told_text t) };

    fn fmt<W: fmt::Write>(&self, f: &mut fmt::Formatter<W>) -> fmt::Result {
        write!(f, "{} {}", self.number, self.place)
    }
}

// A call's own enum of refusals: what it tells is a definition by its cases.
pub trait Refusal {
    ghost use Rattle.refusals.specs.declared.Told.{Told};

    ghost tells: { Self → Told };

    fn told(&self) -> Told
        ensures { result ≡ tells self.now };

    fn number(&self) -> u8
        ensures { result ≡ (tells self.now).number }
    {
        self.told().number
    }

    fn place(&self) -> usize
        ensures { result ≡ (tells self.now).place }
    {
        self.told().place
    }
}
