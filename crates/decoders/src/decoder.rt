ghost use Rattle.std.specs.Prelude.{◌≡◌, ◌≤◌, MatchResult};
ghost use Rattle.codes.specs.Of.{code_of};
ghost use Rattle.decoders.specs.Decoding.{Rule, Room, room_for, words, Enough, Answered, Formed};
ghost use Rattle.decoders.specs.Inquiry.{question};

use crate::inquiry::Inquiry;
use crate::refusal::DecoderRefusal;
use codes::Matrix;

// A decoder means one rule from questions to answers, whatever it was asked before and whatever its working memory held.
pub trait Decoder {
    ghost rule: { Self → Rule };

    ghost room: { Self → Room };

    // How many working words it needs for this matrix.
    fn need(&self, matrix: &Matrix) -> usize
        ensures value { result ≡ room_for (room self.now) (code_of matrix.now) }
        ensures bound { result ≤ 16384 };

    // Writes the answer to the fronts of pattern and confidence; the working memory may hold anything before and after.
    // Stays: pattern, confidence and working memory are lent apart, a rule of the project.
    fn decode(
        &mut self,
        inquiry: &Inquiry<'_>,
        pattern: &mut [u8],
        confidence: &mut [u32],
        work: &mut [i32],
    ) -> Result<(), DecoderRefusal>
        ensures due { MatchResult result
            (λ _. Enough (words (room self.old) inquiry.now) inquiry.now pattern.old confidence.old work.old)
            (λ _. Enough (words (room self.old) inquiry.now) inquiry.now pattern.old confidence.old work.old → ⊥) }
        ensures answered { MatchResult result
            (λ _. Answered inquiry.now.matrix.now.width (rule self.old (question inquiry.now)) pattern.old pattern.new confidence.old confidence.new)
            (λ _. (pattern.new ≡ pattern.old) × (confidence.new ≡ confidence.old) × (work.new ≡ work.old)) }
        ensures same_rule { rule self.new ≡ rule self.old }
        ensures same_room { room self.new ≡ room self.old };

    // Every sound question gets a well-formed answer: each impl proves it.
    ghost formed: { (d : Self) → Formed (rule d) };
}
