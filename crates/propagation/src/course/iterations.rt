ghost use Rattle.std.specs.Prelude.{◌≡◌, map, length};
ghost use Rattle.codes.specs.Of.{code_of};
ghost use Rattle.decoders.specs.Fit.{pattern_fits};
ghost use Rattle.decoders.specs.Inquiry.{question};
ghost use Rattle.propagation.specs.Course.{beliefs_of, renewed, course as course_of, pattern_of, stops_at};
ghost use Rattle.propagation.specs.Within.{WithinKnown, WithinTotals};

use super::Course;
use super::passes::clear_sent;
use beliefs::Belief;
use check_rules::CheckRule;

impl<R> Course<'_, R> {
    // One iteration; tells whether the pattern fits then.
    #[tactic(auto, unfolding(crate::specs::Course::renewed, decoders::specs::Question::asked))]
    fn renew<B: Belief>(&self, totals: &mut [B], sent: &mut [B]) -> bool
    where
        R: CheckRule<B>,
        requires wide { length totals.old ≡ self.now.inquiry.matrix.now.width }
        requires long { length sent.old ≡ length (code_of self.now.inquiry.matrix.now).positions }
        requires totalled { WithinTotals B.exact B.eighths (R.meaning self.now.rule.now) totals.old }
        requires last { WithinKnown B.exact B.eighths (R.meaning self.now.rule.now) sent.old }
        ensures kept_totals { WithinTotals B.exact B.eighths (R.meaning self.now.rule.now) totals.new }
        ensures kept_sent { WithinKnown B.exact B.eighths (R.meaning self.now.rule.now) sent.new }
        ensures value { beliefs_of B.eighths totals.new sent.new
            ≡ renewed (R.meaning self.now.rule.now) (question self.now.inquiry) (beliefs_of B.eighths totals.old sent.old) }
        ensures fit { result ≡ pattern_fits (question self.now.inquiry) (pattern_of (map B.eighths totals.new)) }
    {
        self.send_all(totals, sent);
        self.set_priors(totals);
        self.add_sent(sent, totals);
        self.signs_fit(totals)
    }

    // Runs to the first iteration that fits or to the limit, and tells how many were done.
    #[tactic(auto, using(crate::proofs::Courses::course_steps))]
    pub(crate) fn run<B: Belief>(&self, limit: u8, totals: &mut [B], sent: &mut [B]) -> u8
    where
        R: CheckRule<B>,
        requires wide { length totals.old ≡ self.now.inquiry.matrix.now.width }
        requires long { length sent.old ≡ length (code_of self.now.inquiry.matrix.now).positions }
        ensures kept { WithinTotals B.exact B.eighths (R.meaning self.now.rule.now) totals.new }
        ensures count { result ≡ stops_at (R.meaning self.now.rule.now) (question self.now.inquiry) limit 0 }
        ensures value { map B.eighths totals.new ≡ (course_of (R.meaning self.now.rule.now) (question self.now.inquiry) result).totals }
    {
        self.set_priors(totals);
        clear_sent(sent);
        // Stays: the iterations are counted, as their count is the answer.
        for i in 0..limit {
            if self.renew(totals, sent) {
                return i + 1;
            }
        }
        limit
    }
}
