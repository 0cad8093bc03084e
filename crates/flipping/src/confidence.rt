ghost use Rattle.std.specs.Prelude.{◌≡◌, ℕ, ◌+◌, ◌-◌, ◌*◌, ◌<◌, ◌≤◌, length, pos, slice_index};
ghost use Rattle.codes.specs.Places.{AllBelow};
ghost use Rattle.codes.specs.Admission.{degree};
ghost use Rattle.codes.specs.Syndrome.{IsKey};
ghost use Rattle.decoders.specs.Inquiry.{question};
ghost use Rattle.flipping.specs.Flips.{confidences};

use crate::counts::count_unmet;
use crate::front::Front;

// 16 plus met less unmet checks, of a position with so many checks in all.
fn balance(checks: u32, unmet: i32) -> u32
    requires few { checks ≤ 16 }
    requires part { (u : ℕ) × (unmet ≡ pos u) × (u ≤ checks) }
    ensures { (u : ℕ) → unmet ≡ pos u → result ≡ 16 + checks - 2 * u }
{
    16 + checks - 2 * unmet.unsigned_abs()
}

// The confidence of each position of a pattern.
// Stays: by the index, since the proof over a zip of `iter_mut` did not close.
pub(crate) fn weigh(front: &Front<'_>, pattern: &[u8], confidence: &mut [u32], counts: &mut [i32])
    requires bits { IsKey front.now.inquiry.matrix.now.width pattern.now }
    requires trusted { length confidence.old ≡ front.now.inquiry.matrix.now.width }
    requires wide { length counts.old ≡ front.now.inquiry.matrix.now.width }
    ensures { confidence.new ≡ confidences (question front.now.inquiry) pattern.now }
{
    count_unmet(front, pattern, counts);
    front.inquiry.matrix.count_degrees(confidence);
    for (i, c) in confidence.iter_mut().enumerate() {
        *c = balance(*c, counts[i]);
    }
}
