ghost use Rattle.std.specs.Prelude.{◌≡◌, ℕ, ◌-◌, ◌≤◌, pos};
ghost use Rattle.beliefs.specs.Steps.{Small};
ghost use Rattle.check_rules.specs.Lows.{LowBeliefs, LowReplies};
ghost use Rattle.check_rules.specs.Offset.{offset_rule};
ghost use Rattle.check_rules.specs.Sound.{offset_sound};

use crate::class::raw_place;
use crate::rule::CheckRule;
use beliefs::{Belief, higher, lower};

const KNOWN: u16 = 800;

const OFFSET_RAW: [u16; 12] = [37, 31, 28, 25, 24, 22, 21, 20, 19, 18, 17, 16];

// A check sends the smallest magnitude of the others less an offset.
#[derive(Clone, Copy)]
pub struct OffsetRule;

// The two smallest magnitudes, by value.
#[derive(Clone, Copy)]
pub struct Lows<B: Belief> {
    least: B,
    next: B,
}

// The smallest magnitude, and what can be sent: to those that are not larger, to those that are, and each negative.
#[derive(Clone, Copy)]
pub struct LowReply<B: Belief> {
    least: B,
    sent: [B; 4],
}

// A magnitude less the offset, at least 0.
fn offset_from<B: Belief>(size: B) -> B
    requires whole { B.exact size }
    requires some { (a : ℕ) × (B.eighths size ≡ pos a) × (a ≤ 800) }
    ensures kept { B.exact result }
    ensures small { Small (B.eighths result) }
    ensures value { (a : ℕ) → B.eighths size ≡ pos a → B.eighths result ≡ pos (a - 4) }
{
    let offset = B::of(4);
    if offset.under(size) {
        size.less(offset)
    } else {
        B::of(0)
    }
}

#[tactic(auto, unfolding(crate::specs::Offset::offset_rule), using(crate::proofs::TwoLows::low_reply))]
impl<B: Belief> CheckRule<B> for OffsetRule {
    type Tally = Lows<B>;

    type Reply = LowReply<B>;

    ghost meaning = { λ _. offset_rule };

    ghost tallied = { λ _ xs t. LowBeliefs B.exact B.eighths xs t.least t.next };

    ghost replies = { λ _ xs t. LowReplies B.exact B.eighths xs t.least t.sent };

    ghost sound = { λ _. offset_sound };

    fn known(&self) -> B {
        B::of(KNOWN)
    }

    fn raw(&self, q: u8) -> B {
        let place = raw_place(q);
        B::of(OFFSET_RAW[place])
    }

    fn none(&self) -> Lows<B> {
        Lows {
            least: B::of(KNOWN),
            next: B::of(KNOWN),
        }
    }

    fn take(&self, tally: Lows<B>, size: B) -> Lows<B> {
        Lows {
            least: lower(tally.least, size),
            next: lower(tally.next, higher(tally.least, size)),
        }
    }

    fn reply(&self, tally: Lows<B>) -> LowReply<B> {
        let larger = offset_from(tally.least);
        let least = offset_from(tally.next);
        LowReply {
            least: tally.least,
            sent: [least, larger, least.turned(), larger.turned()],
        }
    }

    // Stays: a table reached by index; a choice by `if` and a negation take longer than C does.
    fn without(&self, reply: &LowReply<B>, size: B, count: u32) -> B {
        let larger = usize::from(reply.least.under(size));
        reply.sent[larger + 2 * (count as usize % 2)]
    }
}
