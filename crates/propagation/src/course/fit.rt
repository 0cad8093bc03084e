ghost use Rattle.std.specs.Prelude.{◌≡◌, map, length};
ghost use Rattle.std.specs.List.{AllByRecursion};
ghost use Rattle.codes.specs.Of.{code_of};
ghost use Rattle.decoders.specs.Fit.{all_below, agrees_at, checks_met, pattern_fits};
ghost use Rattle.decoders.specs.Inquiry.{question};
ghost use Rattle.decoders.specs.Question.{bit_of};
ghost use Rattle.propagation.specs.Course.{pattern_of};

use super::Course;
use beliefs::Belief;
use codes::{Matrix, parity};
use decoders::State;

// Whether each check's parity over the signs is its difference bit.
// Stays: apart from the decoders' test of a pattern, as the one parity serves signs and key bytes alike, a rule of the project.
// Not inlined, as the passes of the offset rule then take a fifth longer.
#[inline(never)]
fn checks_fit<B: Belief>(matrix: &Matrix, difference: &[u8], totals: &[B]) -> bool
    ensures { result ≡ checks_met (code_of matrix.now) (map bit_of difference.now) (map B.told totals.now) }
{
    for (k, bit) in difference.iter().enumerate() {
        if parity(totals, matrix.check(k)) != (*bit).min(1) {
            return false;
        }
    }
    true
}

// Whether the sign at every known position tells its known bit.
// Stays: apart from the decoders' test of a pattern, where a byte over 1 is no known bit; a sign always is a bit.
fn known_fit<B: Belief>(states: &[State], totals: &[B]) -> bool
    requires long { length totals.now ≡ length states.now }
    requires whole { AllByRecursion B.exact totals.now }
    ensures { result ≡ all_below (agrees_at states.now (pattern_of (map B.eighths totals.now))) (length states.now) }
{
    for (state, total) in states.iter().zip(totals) {
        if !state.agrees(total.bit()) {
            return false;
        }
    }
    true
}

impl<R> Course<'_, R> {
    // Whether the signs of the totals fit.
    #[tactic(auto, using(crate::proofs::Fits::sign_fits))]
    pub(super) fn signs_fit<B: Belief>(&self, totals: &[B]) -> bool
        requires wide { length totals.now ≡ self.now.inquiry.matrix.now.width }
        requires whole { AllByRecursion B.exact totals.now }
        ensures { result ≡ pattern_fits (question self.now.inquiry) (pattern_of (map B.eighths totals.now)) }
    {
        let inquiry = &self.inquiry;
        checks_fit(inquiry.matrix, inquiry.difference, totals) && known_fit(inquiry.states, totals)
    }
}
