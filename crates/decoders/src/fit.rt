ghost use Rattle.std.specs.Prelude.{◌≡◌, map, length};
ghost use Rattle.codes.specs.Of.{code_of};
ghost use Rattle.decoders.specs.Question.{bit_of};
ghost use Rattle.decoders.specs.Fit.{all_below, checks_met, agrees_at};

use crate::state::State;
use codes::{Matrix, TellsBit};

// Whether each check's parity over what tells a bit is its difference bit; left at the first check that fails.
// Stays: a rule of the project, nested loops over the checks and their positions, left from inside by a label;
// so the inner loop counts its places and looks for the end itself.
pub fn checks_fit<B: TellsBit>(matrix: &Matrix, difference: &[u8], bits: &[B]) -> bool
    ensures { result ≡ checks_met (code_of matrix.now) (map bit_of difference.now) (map B.told bits.now) }
{
    let mut fit = true;
    'checks: for (k, bit) in difference.iter().enumerate() {
        let check = matrix.check(k);
        let mut sum = 0u8;
        let mut j = 0usize;
        loop {
            if j == check.len() {
                if sum != (*bit).min(1) {
                    fit = false;
                    break 'checks;
                }
                continue 'checks;
            }
            let i = check[j] as usize;
            if i < bits.len() {
                sum = (sum + bits[i].bit()) % 2;
            }
            j += 1;
        }
    }
    fit
}

// Whether every known position has its known bit.
// Stays: apart from the test of beliefs, since a byte over 1 is no known bit, and a belief always tells one.
pub(crate) fn known_bits_fit(states: &[State], pattern: &[u8]) -> bool
    requires { length pattern.now ≡ length states.now }
    ensures { result ≡ all_below (agrees_at states.now pattern.now) (length states.now) }
{
    for (state, bit) in states.iter().zip(pattern) {
        if !state.agrees(*bit) {
            return false;
        }
    }
    true
}
