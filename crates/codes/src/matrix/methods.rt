ghost use Rattle.std.specs.Prelude.{◌≡◌, ◌<◌, ◌≤◌, length, MatchResult, slice_index};
ghost use Rattle.codes.specs.Places.{AllBelow};
ghost use Rattle.codes.specs.Admission.{Admissible, Refused, degree};
ghost use Rattle.codes.specs.Code.{checks as checks_of, check as check_of, start as start_of};
ghost use Rattle.codes.specs.Of.{code_of, lent_of};
ghost use Rattle.codes.specs.Lent.{lent};
ghost use Rattle.codes.specs.Syndrome.{SyndromeGiven};

use super::Matrix;
use crate::admission::{admit_runs, count_degrees, start};
use crate::lent::Lent;
use crate::refusal::{MatrixRefusal, SyndromeRefusal};

impl Matrix {
    // Takes over the two runs of an admissible matrix of `n` positions and `m` checks.
    pub fn admit(
        number: u32,
        n: usize,
        m: usize,
        positions: Vec<u16>,
        ends: Vec<u16>,
    ) -> Result<Matrix, MatrixRefusal>
        ensures { MatchResult result
            (λ x. Admissible n m positions.items ends.items
            × (code_of x ≡ record { number = number; width = n; positions = positions.items; ends = ends.items }))
            (Refused n m positions.items ends.items) }
    {
        admit_runs(n, m, positions.as_slice(), ends.as_slice())?;
        Ok(Matrix {
            number,
            width: n,
            positions,
            ends,
        })
    }

    pub fn number(&self) -> u32
        ensures { result ≡ (code_of self.now).number }
    {
        self.number
    }

    // How many positions it has.
    pub fn width(&self) -> usize
        ensures { result ≡ (code_of self.now).width }
    {
        self.width
    }

    // How many checks it has.
    pub fn checks(&self) -> usize
        ensures { result ≡ checks_of (code_of self.now) }
    {
        self.ends.len()
    }

    // The positions, check after check.
    pub fn positions(&self) -> &[u16]
        ensures { result.now ≡ (code_of self.now).positions }
    {
        self.positions.as_slice()
    }

    // Where each check ends in the run of positions.
    pub fn ends(&self) -> &[u16]
        ensures { result.now ≡ (code_of self.now).ends }
    {
        self.ends.as_slice()
    }

    // The positions of check k; past the last check it is empty.
    pub fn check(&self, k: usize) -> &[u16]
        ensures value { result.now ≡ check_of (code_of self.now) k }
        ensures within { AllBelow (λ i. slice_index result.now i < (code_of self.now).width) (length result.now) }
        ensures few { length result.now ≤ 32 }
    {
        self.lend().check(k)
    }

    // Where check k begins in the run of positions; 0 past the last check but one.
    pub fn start(&self, k: usize) -> usize
        ensures { result ≡ start_of (code_of self.now).ends k }
    {
        start(self.ends(), k)
    }

    // Counts how many checks hold each position; a position past the end of the counts is passed over.
    pub fn count_degrees(&self, degrees: &mut [u32])
        ensures { AllBelow (λ i. slice_index degrees.new i ≡ degree (code_of self.now).positions i) (length degrees.old) }
    {
        count_degrees(self.positions(), degrees);
    }

    fn lend(&self) -> Lent<'_>
        ensures { lent_of result ≡ lent (code_of self.now).width (code_of self.now).positions (code_of self.now).ends }
    {
        Lent {
            width: self.width,
            positions: self.positions(),
            ends: self.ends(),
        }
    }

    // Writes one parity a check to the front of the buffer.
    pub fn syndrome(&self, key: &[u8], out: &mut [u8]) -> Result<(), SyndromeRefusal>
        ensures { SyndromeGiven (code_of self.now) key.now out.old out.new result }
    {
        self.lend().syndrome(key, out)
    }
}
