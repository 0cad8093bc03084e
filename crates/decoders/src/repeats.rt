ghost use Rattle.std.specs.Prelude.{◌≡◌, take, MatchResult};
ghost use Rattle.decoders.specs.Decoding.{words, Enough};
ghost use Rattle.decoders.specs.Inquiry.{question};

use crate::decoder::Decoder;
use crate::inquiry::Inquiry;
use crate::refusal::DecoderRefusal;

// Asks, asks something else as often as is wished, and asks again: equal questions get equal answers.
// Refused where the runs and buffers of the first or the last asking are short.
pub fn asks_twice<D: Decoder>(
    decoder: &mut D,
    first: &Inquiry<'_>,
    between: &Inquiry<'_>,
    times: u32,
    again: &Inquiry<'_>,
    pattern: &mut [u8],
    confidence: &mut [u32],
    pattern_again: &mut [u8],
    confidence_again: &mut [u32],
    work: &mut [i32],
) -> Result<(), DecoderRefusal>
    ensures outcome { MatchResult result
        (λ _. Enough (words (D.room decoder.old) first.now) first.now pattern.old confidence.old work.old
        × Enough (words (D.room decoder.old) again.now) again.now pattern_again.old confidence_again.old work.old)
        (λ _. Enough (words (D.room decoder.old) first.now) first.now pattern.old confidence.old work.old
        × Enough (words (D.room decoder.old) again.now) again.now pattern_again.old confidence_again.old work.old → ⊥) }
    ensures alike { MatchResult result
        (λ _. question first.now ≡ question again.now
        → (take first.now.matrix.now.width pattern.new ≡ take first.now.matrix.now.width pattern_again.new)
        × (take first.now.matrix.now.width confidence.new ≡ take first.now.matrix.now.width confidence_again.new))
        (λ _. Unit {0}) }
{
    decoder.decode(first, pattern, confidence, work)?;
    for _ in 0..times {
        // An answer or a refusal: nothing is kept of it.
        let _ = decoder.decode(between, pattern_again, confidence_again, work);
    }
    decoder.decode(again, pattern_again, confidence_again, work)?;
    Ok(())
}
