ghost use Rattle.std.specs.Prelude.{◌≡◌, length, sum, slice_index};
ghost use Rattle.runs.specs.Bits.{unpacked};
ghost use Rattle.runs.specs.Of.{bits_of};

use crate::scan::bit_at;

// A run of so many bits in packed bytes that are borrowed.
#[derive(Clone, Copy)]
pub struct Run<'a> {
    width: usize,
    bytes: &'a [u8],
}

impl<'a> Run<'a> {
    // The first bits of the bytes; bits past their end are 0.
    pub fn new(width: usize, bytes: &'a [u8]) -> Run<'a>
        ensures { bits_of result ≡ unpacked width bytes.now }
    {
        Run { width, bytes }
    }

    // How many bits it has.
    #[tactic(auto, using(crate::proofs::Packed::read))]
    pub fn len(&self) -> usize
        ensures { result ≡ length (bits_of self.now) }
    {
        self.width
    }

    // Bit i; past the end it is 0.
    #[tactic(auto, using(crate::proofs::Packed::read))]
    pub fn bit(&self, i: usize) -> u8
        ensures { result ≡ slice_index (bits_of self.now) i }
    {
        if i < self.width {
            bit_at(self.bytes, i)
        } else {
            0
        }
    }

    // How many bits are 1: a sum of them, as to count those that pass a test branches on each.
    pub fn ones(&self) -> usize
        ensures { result ≡ sum (bits_of self.now) }
    {
        (0..self.width)
            .map(|i| usize::from(bit_at(self.bytes, i)))
            .sum()
    }
}
