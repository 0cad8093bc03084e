ghost use Rattle.std.specs.Prelude.{◌≡◌};
ghost use Rattle.flipping.specs.Flips.{flipping_rule};
ghost use Rattle.flipping.specs.Worked.{small_question, small_answer};

use crate::decoder::Flipping;

// The decoder of the worked case, with two flips: the second takes back the first.
pub fn worked_case() -> Flipping
    ensures { flipping_rule result.limit small_question ≡ small_answer }
{
    Flipping::new(2)
}
