ghost use Rattle.std.specs.Prelude.{◌≡◌, ℕ, map, length, replicate, pos};
ghost use Rattle.beliefs.specs.Steps.{Small};
ghost use Rattle.codes.specs.Of.{code_of};
ghost use Rattle.decoders.specs.Inquiry.{question};
ghost use Rattle.propagation.specs.Course.{beliefs_of, sent_anew};
ghost use Rattle.propagation.specs.Passes.{prior_by, priors as priors_of, totals_of};
ghost use Rattle.propagation.specs.Within.{Within, WithinKnown, WithinTotals};

use super::Course;
use crate::check::renew_check;
use beliefs::Belief;
use check_rules::CheckRule;
use decoders::State;

// What is believed of a position in this state.
fn prior<B: Belief>(raw: B, known: B, state: State) -> B
    requires raw_whole { B.exact raw }
    requires known_whole { B.exact known }
    requires small { Small (B.eighths known) }
    ensures kept { B.exact result }
    ensures value { (a k : ℕ) → B.eighths raw ≡ pos a → B.eighths known ≡ pos k → B.eighths result ≡ prior_by a k state }
{
    // Two selects, so that no table of jumps is made.
    let told = if state == State::Known1 {
        known.turned()
    } else {
        known
    };
    let open = if state == State::Raw { raw } else { B::of(0) };
    if state.is_known() { told } else { open }
}

// Nothing is sent yet.
// Stays: a loop, as std's `fill` clones, and a belief promises to copy and not that a clone cannot fail; by the index,
// so that an edit can leave the first place as it was.
pub(super) fn clear_sent<B: Belief>(sent: &mut [B])
    ensures kept { (k : ℕ) → Within B.exact B.eighths k sent.new }
    ensures value { map B.eighths sent.new ≡ replicate (length sent.old) (pos 0) }
{
    for i in 0..sent.len() {
        sent[i] = B::of(0);
    }
}

impl<R> Course<'_, R> {
    // Every check hears its positions and sends anew, in place of what it last sent.
    #[tactic(auto, unfolding(crate::specs::Passes::sent_up_to))]
    pub(super) fn send_all<B: Belief>(&self, totals: &[B], sent: &mut [B])
    where
        R: CheckRule<B>,
        requires wide { length totals.now ≡ self.now.inquiry.matrix.now.width }
        requires long { length sent.old ≡ length (code_of self.now.inquiry.matrix.now).positions }
        requires totalled { WithinTotals B.exact B.eighths (R.meaning self.now.rule.now) totals.now }
        requires last { WithinKnown B.exact B.eighths (R.meaning self.now.rule.now) sent.old }
        ensures kept { WithinKnown B.exact B.eighths (R.meaning self.now.rule.now) sent.new }
        ensures value { map B.eighths sent.new
            ≡ sent_anew (R.meaning self.now.rule.now) (question self.now.inquiry) (beliefs_of B.eighths totals.now sent.old) }
    {
        let matrix = self.inquiry.matrix;
        for (k, bit) in self.inquiry.difference.iter().enumerate() {
            let check = matrix.check(k);
            let start = matrix.start(k);
            let part = &mut sent[start..start + check.len()];
            renew_check(self.rule, totals, check, (*bit).min(1), part);
        }
    }

    // Sets each total to its prior.
    pub(super) fn set_priors<B: Belief>(&self, totals: &mut [B])
    where
        R: CheckRule<B>,
        requires { length totals.old ≡ self.now.inquiry.matrix.now.width }
        ensures kept { WithinKnown B.exact B.eighths (R.meaning self.now.rule.now) totals.new }
        ensures value { map B.eighths totals.new
            ≡ priors_of (R.meaning self.now.rule.now) (question self.now.inquiry).class (question self.now.inquiry).states }
    {
        let states = self.inquiry.states;
        let raw = self.rule.raw(self.inquiry.q.clamp(1, 12));
        let known = self.rule.known();
        // Stays: by the index, since in a loop over a zip of `iter_mut` an invariant has no name for what is written.
        for (i, total) in totals.iter_mut().enumerate() {
            *total = prior(raw, known, states[i]);
        }
    }

    // Adds to each total all that is sent to it.
    pub(super) fn add_sent<B: Belief>(&self, sent: &[B], totals: &mut [B])
    where
        R: CheckRule<B>,
        requires wide { length totals.old ≡ self.now.inquiry.matrix.now.width }
        requires long { length sent.now ≡ length (code_of self.now.inquiry.matrix.now).positions }
        requires priors { WithinKnown B.exact B.eighths (R.meaning self.now.rule.now) totals.old }
        requires given { WithinKnown B.exact B.eighths (R.meaning self.now.rule.now) sent.now }
        ensures kept { WithinTotals B.exact B.eighths (R.meaning self.now.rule.now) totals.new }
        ensures value { map B.eighths totals.new
            ≡ totals_of (map B.eighths totals.old) (code_of self.now.inquiry.matrix.now).positions (map B.eighths sent.now) }
    {
        // Stays: by the index, since the proof over a zip takes eight answers in place of three.
        for (j, position) in self.inquiry.matrix.positions().iter().enumerate() {
            let i = *position as usize;
            totals[i] = totals[i].plus(sent[j]);
        }
    }
}
