ghost use Rattle.std.specs.Prelude.{◌≡◌, ℕ, ◌+◌, ◌-◌, ◌<◌, ◌≤◌, map, length, replicate, MatchOption, slice_index};
ghost use Rattle.std.specs.List.{range_with_len};
ghost use Rattle.codes.specs.Places.{AllBelow};
ghost use Rattle.codes.specs.Code.{Code, checks as checks_of};
ghost use Rattle.codes.specs.Lent.{LentSyndrome};
ghost use Rattle.codes.specs.Of.{lent_of};
ghost use Rattle.codes.specs.Syndrome.{IsKey, WrongKeyAt, SyndromeGiven, parity as parity_of, syndrome as syndrome_of, added};

use crate::bits::parity;
use crate::lent::Lent;
use crate::refusal::CallRefusal;

// The first place that is missing, extra, or neither 0 nor 1.
pub(crate) fn key_fault(n: usize, key: &[u8]) -> Option<usize>
    ensures { MatchOption result (IsKey n key.now) (WrongKeyAt n key.now) }
{
    for (i, b) in key.iter().enumerate() {
        if i >= n || *b > 1 {
            return Some(i);
        }
    }
    if key.len() < n { Some(key.len()) } else { None }
}

pub(crate) fn fill_syndrome(matrix: Lent<'_>, key: &[u8], out: &mut [u8])
    requires bits { AllBelow (λ i. slice_index key.now i < 2) (length key.now) }
    requires long { length out.old ≡ checks_of (lent_of matrix) }
    ensures { out.new ≡ syndrome_of (lent_of matrix.entry) key.now }
{
    for (k, bit) in out.iter_mut().enumerate() {
        *bit = parity(key, matrix.check(k));
    }
}

// The syndrome under runs that are only lent: they are tested as admission tests them, before the key and the buffer.
pub fn syndrome_of(
    n: usize,
    m: usize,
    positions: &[u16],
    ends: &[u16],
    key: &[u8],
    out: &mut [u8],
) -> Result<(), CallRefusal>
    ensures { LentSyndrome n m positions.now ends.now key.now out.old out.new result }
{
    Lent::admit(n, m, positions, ends)?.syndrome(key, out)?;
    Ok(())
}

// Adds a word to a key, bit by bit modulo 2; past the word's end nothing is added.
#[tactic(auto, using(crate::proofs::Parities::added_more))]
pub fn add_word(key: &mut [u8], word: &[u8])
    ensures sum { key.new ≡ added key.old word.now }
    ensures linear { length word.now ≤ length key.old
        → (code : Code) → syndrome_of code key.new ≡ added (syndrome_of code key.old) (syndrome_of code word.now) }
{
    for (i, bit) in key.iter_mut().enumerate() {
        // Stays: by the index, as the word may be shorter, and a zip would end there.
        let other = if i < word.len() { word[i] % 2 } else { 0 };
        *bit = (*bit % 2 + other) % 2;
    }
}

// Makes a key all zeros.
#[tactic(auto, using(crate::proofs::Parities::zeros_tell))]
pub fn clear_key(key: &mut [u8])
    ensures zeros { key.new ≡ replicate (length key.old) 0 }
    ensures zero_syndrome { (code : Code) → syndrome_of code key.new ≡ replicate (checks_of code) 0 }
{
    key.fill(0);
}
