ghost use Rattle.std.specs.Prelude.{◌≡◌, sum, ◌==◌, slice_index};
ghost use Rattle.frames.specs.Of.{shape_of};
ghost use Rattle.frames.specs.Parts.{syndrome_run, map_run, value_run};

use crate::frame::Frame;

impl<'a> Frame<'a> {
    // Syndrome bit k; 0 past the last, and in a disclosure.
    pub fn syndrome_bit(&self, k: usize) -> u8
        ensures { result ≡ slice_index (syndrome_run (shape_of self.now)) k }
    {
        match self {
            Frame::Syndrome { bits, .. } => bits.bit(k),
            Frame::Disclosure { .. } => 0,
        }
    }

    // Whether position i is in the map.
    pub fn discloses(&self, i: usize) -> bool
        ensures { result ≡ (slice_index (map_run (shape_of self.now)) i == 1) }
    {
        match self {
            Frame::Syndrome { .. } => false,
            Frame::Disclosure { map, .. } => map.bit(i) == 1,
        }
    }

    // The value at the j-th position of the map; 0 past the last, and in a syndrome.
    pub fn value(&self, j: usize) -> u8
        ensures { result ≡ slice_index (value_run (shape_of self.now)) j }
    {
        match self {
            Frame::Syndrome { .. } => 0,
            Frame::Disclosure { values, .. } => values.bit(j),
        }
    }

    // How many positions are in the map.
    pub fn disclosed(&self) -> usize
        ensures { result ≡ sum (map_run (shape_of self.now)) }
    {
        match self {
            Frame::Syndrome { .. } => 0,
            Frame::Disclosure { map, .. } => map.ones(),
        }
    }
}
