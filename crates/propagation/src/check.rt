ghost use Rattle.std.specs.Prelude.{◌≡◌, ℕ, ◌<◌, ◌≤◌, map, length, pos, ◌-ℤ◌, slice_index, unsigned_abs};
ghost use Rattle.beliefs.specs.Steps.{Small, held};
ghost use Rattle.codes.specs.Places.{AllBelow};
ghost use Rattle.propagation.specs.Check.{heard as heard_of, negatives as negatives_of, answers as answers_of};
ghost use Rattle.propagation.specs.Within.{WithinKnown, WithinTotals};

use beliefs::{Belief, hold};
use check_rules::CheckRule;

// What is gathered of a check's beliefs: a tally of the magnitudes, and how many are negative.
#[derive(Clone, Copy)]
pub struct Gathered<T> {
    tally: T,
    negatives: u32,
}

// A total less what the check last sent there, held to ±known.
fn receive<B: Belief>(total: B, last: B, known: B) -> B
    requires total_whole { B.exact total }
    requires last_whole { B.exact last }
    requires known_whole { B.exact known }
    requires small { Small (B.eighths total -ℤ B.eighths last) }
    requires known_small { Small (B.eighths known) }
    ensures kept { B.exact result }
    ensures value { (k : ℕ) → B.eighths known ≡ pos k → B.eighths result ≡ held k (B.eighths total -ℤ B.eighths last) }
    ensures low { (k : ℕ) → B.eighths known ≡ pos k → unsigned_abs (B.eighths result) ≤ k }
{
    hold(total.less(last), known)
}

// Takes in what the check's positions give it, in place of what it last sent there.
fn hear<B: Belief, R: CheckRule<B>>(
    rule: &R,
    totals: &[B],
    check: &[u16],
    part: &mut [B],
) -> Gathered<R::Tally>
    requires totalled { WithinTotals B.exact B.eighths (R.meaning rule.now) totals.now }
    requires last { WithinKnown B.exact B.eighths (R.meaning rule.now) part.old }
    requires few { length check.now ≤ 32 }
    requires long { length part.old ≡ length check.now }
    requires within { AllBelow (λ i. slice_index check.now i < length totals.now) (length check.now) }
    ensures kept { WithinKnown B.exact B.eighths (R.meaning rule.now) part.new }
    ensures value { map B.eighths part.new ≡ heard_of (R.meaning rule.now).known (map B.eighths totals.now) check.now (map B.eighths part.old) }
    ensures tallied { R.tallied rule.now (map unsigned_abs (map B.eighths part.new)) result.tally }
    ensures counted { result.negatives ≡ negatives_of (map B.eighths part.new) }
{
    let known = rule.known();
    let mut tally = rule.none();
    let mut negatives = 0u32;
    // Stays: by the index, since in a loop over a zip of `iter_mut` an invariant has no name for what is written.
    for (i, position) in check.iter().enumerate() {
        let belief = receive(totals[*position as usize], part[i], known);
        tally = rule.take(tally, belief.size());
        negatives += u32::from(belief.bit());
        part[i] = belief;
    }
    Gathered { tally, negatives }
}

// Sends to each position of a check, in place of what it gave.
fn answer_all<B: Belief, R: CheckRule<B>>(
    rule: &R,
    gathered: Gathered<R::Tally>,
    bit: u8,
    part: &mut [B],
)
    requires given { WithinKnown B.exact B.eighths (R.meaning rule.now) part.old }
    requires tallied { R.tallied rule.now (map unsigned_abs (map B.eighths part.old)) gathered.tally }
    requires counted { gathered.negatives ≡ negatives_of (map B.eighths part.old) }
    requires few { length part.old ≤ 32 }
    ensures kept { WithinKnown B.exact B.eighths (R.meaning rule.now) part.new }
    ensures value { map B.eighths part.new ≡ answers_of (R.meaning rule.now) bit (map B.eighths part.old) }
{
    let reply = rule.reply(gathered.tally);
    let count = gathered.negatives + u32::from(bit);
    for place in part.iter_mut() {
        let belief = *place;
        *place = rule.without(&reply, belief.size(), count - u32::from(belief.bit()));
    }
}

// One check hears its positions and sends anew.
pub(crate) fn renew_check<B: Belief, R: CheckRule<B>>(
    rule: &R,
    totals: &[B],
    check: &[u16],
    bit: u8,
    part: &mut [B],
)
    requires totalled { WithinTotals B.exact B.eighths (R.meaning rule.now) totals.now }
    requires last { WithinKnown B.exact B.eighths (R.meaning rule.now) part.old }
    requires few { length check.now ≤ 32 }
    requires long { length part.old ≡ length check.now }
    requires within { AllBelow (λ i. slice_index check.now i < length totals.now) (length check.now) }
    ensures kept { WithinKnown B.exact B.eighths (R.meaning rule.now) part.new }
    ensures value { map B.eighths part.new
        ≡ answers_of (R.meaning rule.now) bit (heard_of (R.meaning rule.now).known (map B.eighths totals.now) check.now (map B.eighths part.old)) }
{
    let gathered = hear(rule, totals, check, part);
    answer_all(rule, gathered, bit, part);
}
