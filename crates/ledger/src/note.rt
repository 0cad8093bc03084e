ghost use Rattle.std.specs.Prelude.{◌≡◌};
ghost use Rattle.ledger.specs.Refusals.{full_told};

use crate::line::{Line, Outcome};
use refusals::{Refusal, Told};
use std::marker::Model;

// What closing an end tells. It is neither copyable nor droppable, so it can only be booked, and only once.
pub struct Note {
    line: Line,
}

// To contracts a note is the line that it is booked as.
impl Model for Note {
    ghost use Rattle.ledger.specs.declared.line.Line.{Line};

    ghost Value = { Line };

    ghost view = { λ n. n.line };
}

impl Note {
    // For the close of an end, and nothing else.
    pub fn new(block: u32, side: u8, raw: u32, leak: u32, outcome: Outcome) -> Note
        ensures { result ≡ record { block = block; side = side; raw = raw; leak = leak; outcome = outcome } }
    {
        Note {
            line: Line {
                block,
                side,
                raw,
                leak,
                outcome,
            },
        }
    }

    // The line that it is to be booked as.
    pub fn line(&self) -> Line
        ensures { result ≡ self.now }
    {
        self.line
    }

    // Takes the note apart into the line that it is booked as.
    // Stays: a From would let anyone take a note apart, and a note may only be booked.
    pub(crate) fn into_line(self) -> Line
        ensures { result ≡ self }
    {
        let Note { line } = self;
        line
    }
}

// The note that found no line, handed back.
pub struct FullLedger {
    pub note: Note,
}

impl Refusal for FullLedger {
    ghost tells = { full_told };

    fn told(&self) -> Told {
        Told {
            number: 22,
            place: 0,
        }
    }
}
