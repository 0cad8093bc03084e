ghost use Rattle.std.specs.Prelude.{◌≡◌, ℕ, ◌<◌, ◌≤◌, List, length, nat_eq, if◌then◌else◌, slice_index};
ghost use Rattle.std.specs.List.{remove};
ghost use Rattle.check_rules.specs.Admission.{Admissible};
ghost use Rattle.check_rules.specs.Table.{entry, from_sum, table_sends, SumsOf, table_rule};
ghost use Rattle.check_rules.specs.Sound.{table_sound};

use crate::class::raw_place;
use crate::rule::CheckRule;
use beliefs::with_sign;

// Admitted tables of beliefs: a check sends what one table makes of the sum of the other's entries.
// Stays: a rule of the project, 16-bit slices for both tables.
#[derive(Clone, Copy)]
pub struct TableRule<'a> {
    f2a: &'a [u16],
    a2f: &'a [u16],
    raw: &'a [u16],
    ghost sound: { Admissible f2a.now a2f.now raw.now },
}

// How many magnitudes are 0, and the sum of the f2a entries.
#[derive(Clone, Copy)]
pub struct Sums {
    zeros: u32,
    sum: u32,
}

fn is_zero(size: usize) -> u32
    ensures { result ≡ (if nat_eq size 0 then 1 else 0) }
{
    u32::from(size == 0)
}

// A table's entry, counted from 1.
fn entry_at(table: &[u16], place: usize) -> u16
    requires { place ≤ length table.now }
    ensures { result ≡ entry table.now place }
{
    if place == 0 { 0 } else { table[place - 1] }
}

impl TableRule<'_> {
    // What a sum of f2a entries sends.
    #[tactic(auto, using(crate::proofs::TableSums::entry_above))]
    fn from_sum(&self, sum: usize) -> u16
        ensures { result ≡ from_sum self.now.f2a.now self.now.a2f.now sum }
    {
        if sum == 0 {
            return self.f2a.len() as u16;
        }
        let place = sum.min(self.a2f.len());
        self.a2f[place - 1]
    }

    // What the others send to a position of this magnitude.
    #[tactic(auto, using(crate::proofs::TableSums::own_in_sum, crate::proofs::TableSums::others_send))]
    fn sent_size(&self, sums: &Sums, size: usize) -> u16
        requires low { size ≤ length self.now.f2a.now }
        requires some { (xs : List ℕ) × (i : ℕ) × SumsOf self.now.f2a.now xs sums.now.zeros sums.now.sum
            × (i < length xs) × (size ≡ slice_index xs i) }
        ensures { (xs : List ℕ) (i : ℕ) → SumsOf self.now.f2a.now xs sums.now.zeros sums.now.sum → i < length xs → size ≡ slice_index xs i
            → result ≡ table_sends self.now.f2a.now self.now.a2f.now (remove xs i) }
    {
        if is_zero(size) < sums.zeros {
            return 0;
        }
        let own = u32::from(entry_at(self.f2a, size));
        self.from_sum((sums.sum - own) as usize)
    }
}

#[tactic(auto, unfolding(crate::specs::Table::table_rule))]
impl<'a> CheckRule<i32> for TableRule<'a> {
    type Tally = Sums;

    type Reply = Sums;

    ghost meaning = { λ t. table_rule t.f2a.now t.a2f.now t.raw.now };

    ghost tallied = { λ t xs s. SumsOf t.f2a.now xs s.zeros s.sum };

    ghost replies = { λ t xs s. SumsOf t.f2a.now xs s.zeros s.sum };

    ghost sound = { λ t. table_sound t.f2a.now t.a2f.now t.raw.now t.sound };

    fn known(&self) -> i32 {
        self.f2a.len() as i32
    }

    fn raw(&self, q: u8) -> i32 {
        let place = raw_place(q);
        i32::from(self.raw[place])
    }

    fn none(&self) -> Sums {
        Sums { zeros: 0, sum: 0 }
    }

    fn take(&self, tally: Sums, size: i32) -> Sums {
        let magnitude = size.unsigned_abs() as usize;
        Sums {
            zeros: tally.zeros + is_zero(magnitude),
            sum: tally.sum + u32::from(entry_at(self.f2a, magnitude)),
        }
    }

    fn reply(&self, tally: Sums) -> Sums {
        tally
    }

    fn without(&self, reply: &Sums, size: i32, count: u32) -> i32 {
        let sent = self.sent_size(reply, size.unsigned_abs() as usize);
        with_sign(i32::from(sent), count)
    }
}

mod admission;
