ghost use Rattle.std.specs.Prelude.{◌≡◌};
ghost use Rattle.decoders.specs.Fit.{agrees as agrees_with, is_known};

use super::State;

impl State {
    pub fn is_known(self) -> bool
        ensures { result ≡ is_known self }
    {
        match self {
            State::Raw | State::Punctured => false,
            State::Known0 | State::Known1 => true,
        }
    }

    // Whether the bit may stand at a position in this state.
    pub fn agrees(self, bit: u8) -> bool
        ensures { result ≡ agrees_with self bit }
    {
        match self {
            State::Raw | State::Punctured => true,
            State::Known0 => bit == 0,
            State::Known1 => bit == 1,
        }
    }
}
