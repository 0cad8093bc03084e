ghost use Rattle.std.specs.Prelude.{[], ◌∷◌};
ghost use Rattle.propagation_cases.specs.Cases.{Answers};

// An answer on six positions.
#[derive(Clone, Copy)]
pub struct Worked {
    pub pattern: [u8; 6],
    pub confidence: [u32; 6],
}

// Difference 110, limit 64: one error is found.
pub fn finds_one() -> Worked
    ensures { Answers 64 (1 ∷ 1 ∷ 0 ∷ []) result.pattern result.confidence }
{
    Worked {
        pattern: [0, 1, 0, 0, 0, 0],
        confidence: [24, 16, 24, 4, 4, 44],
    }
}

// Difference 100, limit 1: the error is not found yet.
pub fn stops_short() -> Worked
    ensures { Answers 1 (1 ∷ 0 ∷ 0 ∷ []) result.pattern result.confidence }
{
    Worked {
        pattern: [0, 0, 0, 0, 0, 0],
        confidence: [24, 24, 64, 4, 44, 44],
    }
}

// Difference 100, limit 2: it is found.
pub fn finds_later() -> Worked
    ensures { Answers 2 (1 ∷ 0 ∷ 0 ∷ []) result.pattern result.confidence }
{
    Worked {
        pattern: [0, 0, 0, 1, 0, 0],
        confidence: [24, 24, 24, 16, 24, 24],
    }
}
