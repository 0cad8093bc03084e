ghost use Rattle.std.specs.Prelude.{◌≡◌, ◌≤◌, MatchOption};

// The number of a round in which positions are disclosed: any but 0, which publishes the syndrome.
// Stays: the library's NonZeroU16 hides its number behind a function, and the clauses that read it here as a field would be no plainer.
#[derive(Clone, Copy)]
pub struct Round {
    number: u16,
    ghost later: { 1 ≤ number },
}

impl Round {
    // Round 0 discloses nothing.
    pub fn new(number: u16) -> Option<Round>
        ensures { MatchOption result (number ≡ 0) (λ round. round.number ≡ number) }
    {
        if number == 0 {
            return None;
        }
        Some(Round { number })
    }

    pub fn number(self) -> u16
        ensures value { result ≡ self.number }
        ensures bound { 1 ≤ result }
    {
        self.number
    }
}
