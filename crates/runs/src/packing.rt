ghost use Rattle.std.specs.Prelude.{◌≡◌, ℕ, ◌+◌, ◌-◌, ◌*◌, ◌/◌, ◌%◌, ◌^◌, List, [], ◌∷◌, ◌++◌, map, length, slice_index, slice_set};
ghost use Rattle.std.specs.Iterator.{IsFinite};
ghost use Rattle.std.specs.Iterator.Runs.{CountFits, WholeRun};
ghost use Rattle.runs.specs.Bits.{bit_of, bytes_for, unpacked, packed, packed_to, IsBits, IsPacked, IsRun};

use crate::scan::bit_at;

// The bit that a byte stands for: any byte but 0 is 1.
pub fn bit_of(byte: u8) -> u8
    ensures { result ≡ bit_of byte }
{
    byte.min(1)
}

// No bit yet: every byte is 0.
#[tactic(auto, using(crate::proofs::Packed::cleared))]
pub fn clear(out: &mut [u8])
    ensures { out.new ≡ packed_to (length out.old) [] }
{
    out.fill(0);
}

// One bit more behind a packed run of so many bits; where the bytes are full it is let go.
#[tactic(auto, using(crate::proofs::Packed::growing))]
pub fn put_bit(out: &mut [u8], at: usize, bit: u8)
    ensures after { out.new ≡ slice_set out.old (at / 8) ((slice_index out.old (at / 8) + bit_of bit * 2 ^ (7 - at % 8)) % 256) }
    ensures grows { (bits : List ℕ) → IsBits bits → length bits ≡ at → IsPacked out.old bits → out.new ≡ packed_to (length out.old) (bits ++ bit_of bit ∷ []) }
{
    let q = at / 8;
    if q < out.len() {
        out[q] = out[q].wrapping_add(bit_of(bit) << (7 - at % 8));
    }
}

// Packs bits as they come, and fills what is left with 0; bits that find no room are let go.
pub fn pack_all<I: Iterator<Item = u8> + Drop>(bits: I, out: &mut [u8])
    requires can { I.can_next bits }
    requires ends { IsFinite (I.remaining bits) }
    requires fits { CountFits I.next_gives I.remaining 0 bits }
    ensures { WholeRun I.next_gives bits (λ p. out.new ≡ packed_to (length out.old) (map bit_of p.items)) }
{
    clear(out);
    for (i, bit) in bits.enumerate() {
        put_bit(out, i, bit);
    }
}

// The same of bits that stand one to a byte.
#[tactic(auto, using(crate::proofs::Packed::packed_inverse))]
pub fn pack(bits: &[u8], out: &mut [u8])
    ensures packed { out.new ≡ packed_to (length out.old) (map bit_of bits.now) }
    ensures inverse { length out.old ≡ bytes_for (length bits.now) → unpacked (length bits.now) out.new ≡ map bit_of bits.now }
{
    pack_all(bits.iter().copied(), out);
}

// Unpacks as many bits as there are places, one to a byte; bits past the end of the bytes are 0.
#[tactic(auto, using(crate::proofs::Packed::filled))]
pub fn unpack(bytes: &[u8], bits: &mut [u8])
    ensures unpacked { bits.new ≡ unpacked (length bits.old) bytes.now }
    ensures inverse { IsRun (length bits.old) bytes.now → packed bits.new ≡ bytes.now }
{
    for (i, bit) in bits.iter_mut().enumerate() {
        *bit = bit_at(bytes, i);
    }
}
