ghost use Rattle.std.specs.Prelude.{◌≡◌, ℕ, ◌+◌, ◌<◌, ◌≤◌, length, pos, slice_index};
ghost use Rattle.codes.specs.Places.{AllBelow};
ghost use Rattle.codes.specs.Admission.{degree};
ghost use Rattle.codes.specs.Syndrome.{IsKey};
ghost use Rattle.decoders.specs.Inquiry.{question};
ghost use Rattle.flipping.specs.Words.{Holds};
ghost use Rattle.flipping.specs.Flips.{unmet};

use crate::front::Front;
use codes::parity;

// Adds one for each position that the entries name.
// Stays: codes counts degrees in words of another width; a trait of counting words with its laws is longer than both.
fn tally(entries: &[u16], counts: &mut [i32])
    requires few { length entries.now ≤ 8192 }
    requires within { AllBelow (λ j. slice_index entries.now j < length counts.old) (length entries.now) }
    requires small { (f : ℕ → ℕ) × Holds counts.old f (length counts.old) × AllBelow (λ i. f i ≤ 8192) (length counts.old) }
    ensures { (f : ℕ → ℕ) → Holds counts.old f (length counts.old) → Holds counts.new (λ i. f i + degree entries.now i) (length counts.old) }
{
    for p in entries {
        counts[*p as usize] += 1;
    }
}

// How many unmet checks hold each position: those whose parity over the pattern is not their difference bit.
pub(crate) fn count_unmet(front: &Front<'_>, pattern: &[u8], counts: &mut [i32])
    requires bits { IsKey front.now.inquiry.matrix.now.width pattern.now }
    requires wide { length counts.old ≡ front.now.inquiry.matrix.now.width }
    ensures { Holds counts.new (unmet (question front.now.inquiry) pattern.now) front.now.inquiry.matrix.now.width }
{
    counts.fill(0);
    for (k, bit) in front.inquiry.difference.iter().enumerate() {
        let check = front.inquiry.matrix.check(k);
        if parity(pattern, check) != (*bit).min(1) {
            tally(check, counts);
        }
    }
}
