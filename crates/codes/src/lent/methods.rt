ghost use Rattle.std.specs.Prelude.{◌≡◌, ◌<◌, ◌≤◌, length, MatchResult, slice_index};
ghost use Rattle.codes.specs.Places.{AllBelow};
ghost use Rattle.codes.specs.Admission.{Admissible, Refused};
ghost use Rattle.codes.specs.Code.{check as check_of};
ghost use Rattle.codes.specs.Lent.{lent};
ghost use Rattle.codes.specs.Of.{lent_of};
ghost use Rattle.codes.specs.Syndrome.{SyndromeGiven};

use super::Lent;
use crate::admission::{admit_runs, start};
use crate::refusal::{MatrixRefusal, SyndromeRefusal};
use crate::syndrome::{fill_syndrome, key_fault};

impl<'a> Lent<'a> {
    pub(crate) fn admit(
        n: usize,
        m: usize,
        positions: &'a [u16],
        ends: &'a [u16],
    ) -> Result<Lent<'a>, MatrixRefusal>
        ensures { MatchResult result
            (λ x. Admissible n m positions.now ends.now × (lent_of x ≡ lent n positions.now ends.now))
            (Refused n m positions.now ends.now) }
    {
        admit_runs(n, m, positions, ends)?;
        Ok(Lent {
            width: n,
            positions,
            ends,
        })
    }

    // The positions of check k; past the last check there are none.
    pub(crate) fn check(self, k: usize) -> &'a [u16]
        ensures value { result.now ≡ check_of (lent_of self.entry) k }
        ensures within { AllBelow (λ i. slice_index result.now i < self.entry.width) (length result.now) }
        ensures few { length result.now ≤ 32 }
    {
        if k >= self.ends.len() {
            return &self.positions[0..0];
        }
        &self.positions[start(self.ends, k)..self.ends[k] as usize]
    }

    // Writes one parity a check to the front of the buffer.
    pub(crate) fn syndrome(self, key: &[u8], out: &mut [u8]) -> Result<(), SyndromeRefusal>
        ensures { SyndromeGiven (lent_of self.entry) key.now out.old out.new result }
    {
        if let Some(i) = key_fault(self.width, key) {
            return Err(SyndromeRefusal::WrongKey(i));
        }
        let m = self.ends.len();
        if out.len() < m {
            return Err(SyndromeRefusal::ShortBuffer(m));
        }
        fill_syndrome(self, key, &mut out[0..m]);
        Ok(())
    }
}
