ghost use Rattle.std.specs.Prelude.{◌≡◌, MatchResult};
ghost use Rattle.ledger.specs.Lines.{totals_of, plus};
ghost use Rattle.ledger.specs.Booking.{in_use, Booked, HandedBack};

use crate::ledger::Ledger;
use crate::line::{Line, Totals};
use crate::note::{FullLedger, Note};

// Books one note in a run of which `used` lines are in use, and tells how many are then.
// Stays: a lent run with its count in use, a rule of the project.
pub fn book_in(lines: &mut [Line], used: usize, note: Note) -> Result<usize, FullLedger>
    ensures { MatchResult result
        (λ n. Booked lines.old used note lines.new n)
        (λ e. HandedBack lines.old used note e.note lines.new used) }
{
    let mut ledger = Ledger::over(lines, used);
    ledger.book(note)?;
    Ok(ledger.used())
}

// Two ledgers' totals together, for a panel that keeps more than one.
pub fn joint_totals(first: &Ledger<'_>, second: &Ledger<'_>) -> Totals
    ensures { result ≡ plus (totals_of (in_use first.now)) (totals_of (in_use second.now)) }
{
    first.totals() + second.totals()
}
