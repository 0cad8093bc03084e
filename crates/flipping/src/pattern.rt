ghost use Rattle.std.specs.Prelude.{◌≡◌, map, length};
ghost use Rattle.codes.specs.Syndrome.{IsKey};
ghost use Rattle.decoders.specs.Inquiry.{question};
ghost use Rattle.flipping.specs.Flips.{start_bit, run};

use crate::choice::most_unmet;
use crate::counts::count_unmet;
use crate::front::Front;
use decoders::State;

fn start_bit(state: State) -> u8
    ensures { result ≡ start_bit state }
{
    match state {
        State::Raw | State::Punctured | State::Known0 => 0,
        State::Known1 => 1,
    }
}

// 0, or the known bit, at every position.
// Stays: by the index, since the proof over a zip of `iter_mut` did not close.
pub(crate) fn start_pattern(states: &[State], pattern: &mut [u8])
    requires { length pattern.old ≡ length states.now }
    ensures { pattern.new ≡ map start_bit states.now }
{
    for (i, bit) in pattern.iter_mut().enumerate() {
        *bit = start_bit(states[i]);
    }
}

// Flips one position after another, at most `limit` of them, until no position that may be flipped lies in an unmet check.
pub(crate) fn settle(limit: u16, front: &Front<'_>, pattern: &mut [u8], counts: &mut [i32])
    requires bits { IsKey front.now.inquiry.matrix.now.width pattern.old }
    requires wide { length counts.old ≡ front.now.inquiry.matrix.now.width }
    ensures bits { IsKey front.now.inquiry.matrix.now.width pattern.new }
    ensures ran { pattern.new ≡ run (question front.now.inquiry) limit pattern.old }
{
    for _ in 0..limit {
        count_unmet(front, pattern, counts);
        let Some(i) = most_unmet(front.inquiry.states, counts) else {
            break;
        };
        pattern[i] = 1 - pattern[i];
    }
}
