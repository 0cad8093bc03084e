ghost use Rattle.std.specs.Prelude.{◌≡◌, ◌<◌, length, MatchBool, MatchOption, MatchResult, IfOk};
ghost use Rattle.codes.specs.Places.{AllBelow, FirstFault};
ghost use Rattle.check_rules.specs.Admission.{SoundLengths, SoundFall, SoundRaw, Admissible, Refused, OneRefusal};
ghost use Rattle.check_rules.specs.Table.{table_rule};

use super::TableRule;
use crate::refusal::TableRefusal;
use crate::rule::CheckRule;

fn lengths_are_sound(f2a: &[u16], a2f: &[u16], raw: &[u16]) -> bool
    ensures { MatchBool result (SoundLengths f2a.now a2f.now raw.now) (SoundLengths f2a.now a2f.now raw.now → ⊥) }
{
    1 <= f2a.len() && f2a.len() <= 4095 && 1 <= a2f.len() && a2f.len() <= 4095 && raw.len() == 12
}

// The first place that is over the limit, or over the place before it.
fn first_wrong_fall(table: &[u16], limit: usize) -> Option<usize>
    ensures { MatchOption result (AllBelow (SoundFall limit table.now) (length table.now)) (FirstFault (SoundFall limit table.now) (length table.now)) }
{
    table.iter().enumerate().position(|(i, entry)| usize::from(*entry) > limit
        || i > 0 && table[i] > table[i - 1])
}

// The first place that is 0 or over the limit.
fn first_wrong_raw(raw: &[u16], limit: usize) -> Option<usize>
    ensures { MatchOption result (AllBelow (SoundRaw limit raw.now) (length raw.now)) (FirstFault (SoundRaw limit raw.now) (length raw.now)) }
{
    raw.iter()
        .position(|belief| *belief < 1 || usize::from(*belief) > limit)
}

// Whether these tables are admitted, and the refusal that is due if they are not.
// Stays: the tables come in apart and as plain numbers, a rule of the project, so that wrong ones can be refused.
fn admit_tables(f2a: &[u16], a2f: &[u16], raw: &[u16]) -> Result<(), TableRefusal>
    ensures { MatchResult result (λ _. Admissible f2a.now a2f.now raw.now) (Refused f2a.now a2f.now raw.now) }
{
    if !lengths_are_sound(f2a, a2f, raw) {
        return Err(TableRefusal::WrongLength);
    }
    if let Some(i) = first_wrong_fall(f2a, a2f.len()) {
        return Err(TableRefusal::WrongF2a(i + 1));
    }
    if let Some(i) = first_wrong_fall(a2f, f2a.len()) {
        return Err(TableRefusal::WrongA2f(i + 1));
    }
    if let Some(i) = first_wrong_raw(raw, f2a.len()) {
        return Err(TableRefusal::WrongRaw(i + 1));
    }
    Ok(())
}

impl<'a> TableRule<'a> {
    // Borrows tables that are sound.
    #[tactic(auto, using(crate::proofs::Refusals::one_refusal))]
    pub fn admit(
        f2a: &'a [u16],
        a2f: &'a [u16],
        raw: &'a [u16],
    ) -> Result<TableRule<'a>, TableRefusal>
        ensures outcome { MatchResult result (λ _. Admissible f2a.now a2f.now raw.now) (Refused f2a.now a2f.now raw.now) }
        ensures lent { IfOk result (λ t. (t.f2a.now ≡ f2a.now) × (t.a2f.now ≡ a2f.now) × (t.raw.now ≡ raw.now)) }
        ensures meant { IfOk result (λ t. ⟦<TableRule<'a> as CheckRule<i32>>⟧.meaning t ≡ table_rule f2a.now a2f.now raw.now) }
        ensures one { OneRefusal f2a.now a2f.now raw.now }
    {
        admit_tables(f2a, a2f, raw)?;
        Ok(TableRule { f2a, a2f, raw })
    }
}
