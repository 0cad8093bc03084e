ghost use Rattle.std.specs.Prelude.{◌≡◌, ℕ, ◌<◌, map};
ghost use Rattle.codes.specs.Tells.{byte_bit, sign_bit};
ghost use Rattle.codes.specs.Syndrome.{parity as parity_of};

// What tells a bit: a key byte, or a belief, which tells 1 when it is negative.
pub trait TellsBit {
    ghost told: { Self → ℕ };

    fn bit(&self) -> u8
        ensures value { result ≡ told self.now }
        ensures bound { result < 2 };
}

impl TellsBit for u8 {
    ghost told = { byte_bit };

    fn bit(&self) -> u8 {
        *self % 2
    }
}

impl TellsBit for i32 {
    ghost told = { sign_bit };

    fn bit(&self) -> u8 {
        u8::from(*self < 0)
    }
}

// The sum modulo 2 of the bits told at the positions; a position past the end adds nothing.
pub fn parity<B: TellsBit>(bits: &[B], positions: &[u16]) -> u8
    ensures { result ≡ parity_of (map B.told bits.now) positions.now }
{
    let mut sum = 0u8;
    for p in positions {
        let i = *p as usize;
        if i < bits.len() {
            sum = (sum + bits[i].bit()) % 2;
        }
    }
    sum
}
