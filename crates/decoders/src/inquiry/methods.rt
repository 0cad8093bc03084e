ghost use Rattle.std.specs.Prelude.{◌≡◌, ℕ, map, min, length, take, MatchResult};
ghost use Rattle.codes.specs.Code.{checks as checks_of};
ghost use Rattle.codes.specs.Of.{code_of};
ghost use Rattle.decoders.specs.Decoding.{Enough};
ghost use Rattle.decoders.specs.Fit.{pattern_fits, LongRuns};
ghost use Rattle.decoders.specs.Inquiry.{question};

use super::Inquiry;
use crate::fit::{checks_fit, known_bits_fit};
use crate::refusal::DecoderRefusal;

impl<'a> Inquiry<'a> {
    // Refuses runs or buffers that are short for a decoder that needs so many working words.
    pub fn test_lengths(
        &self,
        words: usize,
        pattern: &[u8],
        confidence: &[u32],
        work: &[i32],
    ) -> Result<(), DecoderRefusal>
        ensures { MatchResult result
            (λ _. Enough words self.now pattern.now confidence.now work.now)
            (λ _. Enough words self.now pattern.now confidence.now work.now → ⊥) }
    {
        let n = self.matrix.width();
        if self.matrix.checks() <= self.difference.len()
            && n <= self.states.len()
            && n <= pattern.len()
            && n <= confidence.len()
            && words <= work.len()
        {
            Ok(())
        } else {
            Err(DecoderRefusal::ShortBuffer)
        }
    }

    // The same question in runs that are no longer than the matrix asks.
    pub fn fronts(&self) -> Inquiry<'a>
        ensures matrix { result.matrix ≡ self.now.matrix }
        ensures difference { result.difference.now ≡ take (checks_of (code_of self.now.matrix.now)) self.now.difference.now }
        ensures states { result.states.now ≡ take self.now.matrix.now.width self.now.states.now }
        ensures class { result.q ≡ self.now.q }
        ensures same { question result ≡ question self.now }
    {
        let m = self.matrix.checks().min(self.difference.len());
        let n = self.matrix.width().min(self.states.len());
        Inquiry {
            matrix: self.matrix,
            difference: &self.difference[0..m],
            states: &self.states[0..n],
            q: self.q,
        }
    }

    // Whether the pattern's first places fit the question. A byte over 1 counts modulo 2 in a check, and is no known bit.
    pub fn fits(&self, pattern: &[u8]) -> Result<bool, DecoderRefusal>
        ensures { MatchResult result
            (λ fit. LongRuns self.now pattern.now × (fit ≡ pattern_fits (question self.now) (take self.now.matrix.now.width pattern.now)))
            (λ _. LongRuns self.now pattern.now → ⊥) }
    {
        let n = self.matrix.width();
        let m = self.matrix.checks();
        if self.difference.len() < m || self.states.len() < n || pattern.len() < n {
            return Err(DecoderRefusal::ShortBuffer);
        }
        let pattern = &pattern[0..n];
        let fit = checks_fit(self.matrix, &self.difference[0..m], pattern)
            && known_bits_fit(&self.states[0..n], pattern);
        Ok(fit)
    }
}
