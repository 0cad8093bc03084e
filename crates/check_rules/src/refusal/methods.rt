ghost use Rattle.std.specs.Prelude.{◌≡◌, Some};
ghost use Rattle.check_rules.specs.Refusals.{table_told, told_text};

use super::{TableRefusal, TableTold};
use std::fmt;

impl TableRefusal {
    pub fn told(&self) -> TableTold
        ensures { result ≡ table_told self.now }
    {
        let (number, table, entry) = match *self {
            TableRefusal::WrongLength => (5, 0, 0),
            TableRefusal::WrongF2a(entry) => (6, 0, entry),
            TableRefusal::WrongA2f(entry) => (6, 1, entry),
            TableRefusal::WrongRaw(entry) => (6, 2, entry),
        };
        TableTold {
            number,
            table,
            entry,
        }
    }
}

// A wrong length has no entry, and is printed with one 0.
impl fmt::Display for TableTold {
    ghost output = { λ t. Some (told_text t) };

    fn fmt<W: fmt::Write>(&self, f: &mut fmt::Formatter<W>) -> fmt::Result {
        if self.entry == 0 {
            write!(f, "{} 0", self.number)
        } else {
            write!(f, "{} {} {}", self.number, self.table, self.entry)
        }
    }
}
