ghost use Rattle.std.specs.Prelude.{◌≡◌, ◌*◌};
ghost use Rattle.propagation.specs.Bounds.{propagated_formed};
ghost use Rattle.propagation.specs.Course.{limited, propagated, propagation_room};
ghost use Rattle.propagation.specs.Promises.{Bounded, EarlyFits};

use crate::answer::write_answer;
use crate::course::Course;
use check_rules::CheckRule;
use codes::Matrix;
use decoders::{Decoder, DecoderRefusal, Inquiry};

// Belief propagation over a check rule, to a limit of iterations from 1 to 64; outside counts as the nearer end.
#[derive(Drop)]
pub struct Propagation<R> {
    pub rule: R,
    pub limit: u8,
}

impl<R: CheckRule<i32>> Propagation<R> {
    // How many iterations it does at most. Where it stops before, its pattern fits.
    #[tactic(auto, using(crate::proofs::Courses::early_fits))]
    pub fn iteration_limit(&self) -> u8
        ensures value { result ≡ limited self.now.limit }
        ensures early { EarlyFits (R.meaning self.now.rule) self.now.limit }
    {
        self.limit.clamp(1, 64)
    }

    // The most that a confidence can be.
    #[tactic(auto, using(crate::specs::Bounds::bounded))]
    pub fn most_confident(&self) -> u32
        ensures value { result ≡ 17 * (R.meaning self.now.rule).known }
        ensures bounded { Bounded (R.meaning self.now.rule) self.now.limit }
    {
        17 * self.rule.known().unsigned_abs()
    }
}

impl<R: CheckRule<i32>> Decoder for Propagation<R> {
    ghost rule = { λ p. propagated (R.meaning p.rule) p.limit };

    ghost room = { λ _. propagation_room };

    ghost formed = { λ p. propagated_formed (R.meaning p.rule) (R.sound p.rule) p.limit };

    fn need(&self, matrix: &Matrix) -> usize {
        matrix.width() + matrix.positions().len()
    }

    fn decode(
        &mut self,
        inquiry: &Inquiry<'_>,
        pattern: &mut [u8],
        confidence: &mut [u32],
        work: &mut [i32],
    ) -> Result<(), DecoderRefusal> {
        inquiry.test_lengths(self.need(inquiry.matrix), pattern, confidence, work)?;
        let n = inquiry.matrix.width();
        let entries = inquiry.matrix.positions().len();
        // Stays: a rule of the project, one lent slice holds the totals and then the sent beliefs, reached by index.
        let (totals, rest) = work.split_at_mut(n);
        let course = Course {
            rule: &self.rule,
            inquiry: inquiry.fronts(),
        };
        course.run(self.iteration_limit(), totals, &mut rest[0..entries]);
        write_answer(totals, &mut pattern[0..n], &mut confidence[0..n]);
        Ok(())
    }
}
