ghost use Rattle.std.specs.Prelude.{◌≡◌, ◌*◌, ◌^◌, ◌≤◌, min, ◌<◌, length, MatchResult};
ghost use Rattle.ledger.specs.Lines.{totals_of, part_of};
ghost use Rattle.ledger.specs.Booking.{in_use, Booked, HandedBack};

use super::Ledger;
use crate::line::{Line, Outcome, Totals};
use crate::note::{FullLedger, Note};

const MOST_LINES: usize = 4096;

impl<'a> Ledger<'a> {
    // Opens a ledger over a run whose first lines are in use; of more lines than the run or a ledger has, all are.
    pub fn over(lines: &'a mut [Line], used: usize) -> Ledger<'a>
        ensures used { result.used ≡ min used (min (length lines.old) 4096) }
        ensures lines { result.lines.now ≡ lines.old }
        ensures lender { result.lines.ghost_name ≡ lines.entry.ghost_name }
    {
        let most = lines.len().min(MOST_LINES);
        Ledger {
            used: used.min(most),
            lines,
        }
    }

    // How many lines are in use.
    pub fn used(&self) -> usize
        ensures { result ≡ self.now.used }
    {
        self.used
    }

    // Books the note as the next line, or hands it back where the ledger is full.
    pub fn book(&mut self, note: Note) -> Result<(), FullLedger>
        ensures outcome { MatchResult result
            (λ _. Booked self.old.lines.now self.old.used note self.new.lines.now self.new.used)
            (λ e. HandedBack self.old.lines.now self.old.used note e.note self.new.lines.now self.new.used) }
        ensures lender { self.new.lines.ghost_name ≡ self.old.lines.ghost_name }
    {
        let at = self.used;
        if at >= self.lines.len().min(MOST_LINES) {
            return Err(FullLedger { note });
        }
        self.lines[at] = note.into_line();
        self.used = at + 1;
        Ok(())
    }

    // Raw bits and leak over the settled lines in use.
    pub fn totals(&self) -> Totals
        ensures value { result ≡ totals_of (in_use self.now) }
        ensures bound { (result.raw ≤ 4096 * 2 ^ 32) × (result.leak ≤ 4096 * 2 ^ 32) }
    {
        let lines = &self.lines[..self.used];
        let mut totals = Totals { raw: 0, leak: 0 };
        for line in lines {
            totals = totals + settled_part(line);
        }
        totals
    }
}

// What a line adds to the totals: nothing unless it settled.
fn settled_part(line: &Line) -> Totals
    ensures value { result ≡ part_of line.now }
    ensures bound { (result.raw < 2 ^ 32) × (result.leak < 2 ^ 32) }
{
    match line.outcome {
        Outcome::Settled => Totals {
            raw: u64::from(line.raw),
            leak: u64::from(line.leak),
        },
        _ => Totals { raw: 0, leak: 0 },
    }
}
