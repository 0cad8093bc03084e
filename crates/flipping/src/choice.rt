ghost use Rattle.std.specs.Prelude.{◌≡◌, ℕ, length, pos, if◌then◌else◌, MatchOption, ◌≢◌};
ghost use Rattle.decoders.specs.Fit.{is_known};
ghost use Rattle.flipping.specs.Words.{Holds};
ghost use Rattle.flipping.specs.Flips.{votes, most as most_of, leader as leader_of};

use decoders::State;

fn vote(state: State, count: i32) -> u32
    ensures { (c : ℕ) → count ≡ pos c → result ≡ (if is_known state then 0 else c) }
{
    if state.is_known() {
        0
    } else {
        count.unsigned_abs()
    }
}

// The first of the not-known positions that lie in most unmet checks, if any lies in one.
// Stays: of equals `max_by_key` gives the last, so a chain would go backwards and turn the place round again.
pub(crate) fn most_unmet(states: &[State], counts: &[i32]) -> Option<usize>
    requires { length counts.now ≡ length states.now }
    ensures { (f : ℕ → ℕ) → Holds counts.now f (length states.now) → MatchOption result
        (most_of (votes states.now f) (length states.now) ≡ 0)
        (λ i. (most_of (votes states.now f) (length states.now) ≢ 0) × (i ≡ leader_of (votes states.now f) (length states.now))) }
{
    let mut most = 0u32;
    let mut leader = None;
    for (i, count) in counts.iter().enumerate() {
        let here = vote(states[i], *count);
        if most < here {
            most = here;
            leader = Some(i);
        }
    }
    leader
}
