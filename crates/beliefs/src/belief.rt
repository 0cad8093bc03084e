ghost use Rattle.std.specs.Prelude.{◌≡◌, ℤ, pos, neg_ℤ, nat_abs, ◌+ℤ◌, ◌-ℤ◌, refl};
ghost use Rattle.std.specs.Int.Signed.{lt_z};
ghost use Rattle.codes.specs.Tells.{sign_bit};
ghost use Rattle.beliefs.specs.Steps.{Small};

use codes::TellsBit;

// A belief in a bit: its sign tells the bit, its magnitude how sure it is.
// What it means is a whole number of steps; each operation is exact on those.
// Stays: std's operators promise neither steps nor exactness, so as supertraits each needs a law as long as its method here.
pub trait Belief: Copy + TellsBit {
    ghost eighths: { Self → ℤ };

    // It stands for a whole number of steps.
    // Stays: lent memory holds plain numbers, so this is asked and promised by clauses and is no field of a type.
    ghost exact: { Self → Type 0 };

    fn of(steps: u16) -> Self
        ensures kept { exact result }
        ensures value { eighths result ≡ pos steps };

    fn plus(self, other: Self) -> Self
        requires left { exact self }
        requires right { exact other }
        requires small { Small (eighths self +ℤ eighths other) }
        ensures kept { exact result }
        ensures value { eighths result ≡ eighths self +ℤ eighths other };

    fn less(self, other: Self) -> Self
        requires left { exact self }
        requires right { exact other }
        requires small { Small (eighths self -ℤ eighths other) }
        ensures kept { exact result }
        ensures value { eighths result ≡ eighths self -ℤ eighths other };

    // Of the other sign.
    fn turned(self) -> Self
        requires whole { exact self }
        requires small { Small (eighths self) }
        ensures kept { exact result }
        ensures value { eighths result ≡ neg_ℤ (eighths self) };

    // Its magnitude.
    fn size(self) -> Self
        requires whole { exact self }
        requires small { Small (eighths self) }
        ensures kept { exact result }
        ensures value { eighths result ≡ pos (nat_abs (eighths self)) };

    fn under(self, other: Self) -> bool
        requires left { exact self }
        requires right { exact other }
        ensures { result ≡ lt_z (eighths self) (eighths other) };

    // Its magnitude in steps.
    fn count(self) -> u32
        requires whole { exact self }
        requires small { Small (eighths self) }
        ensures { result ≡ nat_abs (eighths self) };

    // Each impl has to prove it: a ghost member is a law below the last function, and data above it.
    ghost tells: { (x : Self) → exact x → Self.TellsBit.told x ≡ sign_bit (eighths x) };
}

impl Belief for i32 {
    ghost eighths = { λ x. x };

    ghost exact = { λ _. Unit {0} };

    ghost tells = { λ _ _. refl };

    fn of(steps: u16) -> i32 {
        i32::from(steps)
    }

    fn plus(self, other: i32) -> i32 {
        self + other
    }

    fn less(self, other: i32) -> i32 {
        self - other
    }

    fn turned(self) -> i32 {
        -self
    }

    fn size(self) -> i32 {
        self.abs()
    }

    fn under(self, other: i32) -> bool {
        self < other
    }

    fn count(self) -> u32 {
        self.unsigned_abs()
    }
}
