ghost use Rattle.std.specs.Prelude.{◌≡◌, length};
ghost use Rattle.decoders.specs.Inquiry.{question};
ghost use Rattle.flipping.specs.Flips.{flipping_rule, flipping_room};
ghost use Rattle.flipping.specs.Formed.{flipping_formed};
ghost use Rattle.flipping.specs.Promises.{KeepsKnown, WithinLimit, LeaderIsFirst};

use crate::confidence::weigh;
use crate::front::Front;
use crate::pattern::{settle, start_pattern};
use codes::Matrix;
use decoders::{Decoder, DecoderRefusal, Inquiry};

// Bit flipping with at most so many flips; a limit outside 1 to 2,048 counts as the nearer end.
#[derive(Clone, Copy, PartialEq, Eq, Debug)]
pub struct Flipping {
    pub limit: u16,
}

impl Flipping {
    pub fn new(limit: u16) -> Flipping
        ensures value { result.limit ≡ limit }
        ensures keeps_known { KeepsKnown limit }
        ensures within_limit { WithinLimit limit }
        ensures leader_is_first { LeaderIsFirst }
    {
        Flipping { limit }
    }
}

// Answers a question, in buffers of just its size.
// Stays: pattern, confidence and counts are lent apart, a rule of the project, and so each call tells their lengths.
#[tactic(auto, unfolding(crate::specs::Flips::flipping_rule), using(crate::proofs::Exact::states_are, crate::proofs::Exact::starts))]
fn solve(
    limit: u16,
    front: &Front<'_>,
    pattern: &mut [u8],
    confidence: &mut [u32],
    counts: &mut [i32],
)
    requires patterned { length pattern.old ≡ front.now.inquiry.matrix.now.width }
    requires trusted { length confidence.old ≡ front.now.inquiry.matrix.now.width }
    requires wide { length counts.old ≡ front.now.inquiry.matrix.now.width }
    ensures pattern { pattern.new ≡ (flipping_rule limit (question front.now.inquiry)).pattern }
    ensures confidence { confidence.new ≡ (flipping_rule limit (question front.now.inquiry)).confidence }
{
    start_pattern(front.inquiry.states, pattern);
    let most = limit.clamp(1, 2048);
    settle(most, front, pattern, counts);
    weigh(front, pattern, confidence, counts);
}

impl Decoder for Flipping {
    ghost rule = { λ f. flipping_rule f.limit };

    ghost room = { λ _. flipping_room };

    ghost formed = { λ f. flipping_formed f.limit };

    // One word a position and one a check, as is promised; only the former are used, for counts.
    fn need(&self, matrix: &Matrix) -> usize {
        matrix.width() + matrix.checks()
    }

    fn decode(
        &mut self,
        inquiry: &Inquiry<'_>,
        pattern: &mut [u8],
        confidence: &mut [u32],
        work: &mut [i32],
    ) -> Result<(), DecoderRefusal> {
        inquiry.test_lengths(self.need(inquiry.matrix), pattern, confidence, work)?;
        let n = inquiry.matrix.width();
        solve(
            self.limit,
            &Front::of(inquiry),
            &mut pattern[..n],
            &mut confidence[..n],
            &mut work[..n],
        );
        Ok(())
    }
}
