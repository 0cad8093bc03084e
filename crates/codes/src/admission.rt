ghost use Rattle.std.specs.Prelude.{◌≡◌, ℕ, ◌+◌, ◌-◌, ◌<◌, ◌≤◌, List, length, MatchBool, MatchOption, MatchResult, slice_index};
ghost use Rattle.codes.specs.Places.{AllBelow, FirstFault};
ghost use Rattle.codes.specs.Code.{start as start_of, end as end_of};
ghost use Rattle.codes.specs.Limits.{Sizes};
ghost use Rattle.codes.specs.Admission.{SoundSizes, SoundCheck, Within, SoundEntry, SoundPosition, degree, Admissible, Refused, OneRefusal};

use crate::refusal::MatrixRefusal;

// The limits of a matrix.
pub const MOST_POSITIONS: usize = 2048;

pub const MOST_CHECKS: usize = 1024;

pub const MOST_ENTRIES: usize = 8192;

const LARGEST_CHECK: usize = 32;

const MOST_CHECKS_HELD: u16 = 16;

// Whether a matrix may have so many positions and checks.
pub fn sizes_are_sound(n: usize, m: usize) -> bool
    ensures { MatchBool result (Sizes n m) (Sizes n m → ⊥) }
{
    2 <= n && n <= MOST_POSITIONS && 1 <= m && m <= MOST_CHECKS && m < n
}

fn runs_are_sound(n: usize, m: usize, positions: &[u16], ends: &[u16]) -> bool
    ensures { MatchBool result (SoundSizes n m positions.now ends.now) (SoundSizes n m positions.now ends.now → ⊥) }
{
    sizes_are_sound(n, m) && positions.len() <= MOST_ENTRIES && ends.len() == m
}

// Where a check begins in the run of positions; past the last check but one it is 0.
pub(crate) fn start(ends: &[u16], k: usize) -> usize
    ensures { result ≡ start_of ends.now k }
{
    if 0 < k && k <= ends.len() {
        ends[k - 1] as usize
    } else {
        0
    }
}

// Whether a check has an entry, at most 32, and if it is the last ends with the run.
fn check_is_sound(positions: &[u16], ends: &[u16], k: usize) -> bool
    ensures { MatchBool result (SoundCheck positions.now ends.now k) (SoundCheck positions.now ends.now k → ⊥) }
{
    let Some(end) = ends.get(k) else {
        return false;
    };
    let start = start(ends, k);
    let end = *end as usize;
    start < end && end <= start + LARGEST_CHECK && (k + 1 < ends.len() || end == positions.len())
}

fn first_wrong_check(positions: &[u16], ends: &[u16]) -> Option<usize>
    ensures { MatchOption result
        (AllBelow (SoundCheck positions.now ends.now) (length ends.now))
        (FirstFault (SoundCheck positions.now ends.now) (length ends.now)) }
{
    (0..ends.len()).find(|k| !check_is_sound(positions, ends, *k))
}

// How often each position is named; one past the end of the counts is passed over.
pub(crate) fn count_degrees(positions: &[u16], degrees: &mut [u32])
    requires { length positions.now ≤ 8192 }
    ensures { AllBelow (λ i. slice_index degrees.new i ≡ degree positions.now i) (length degrees.old) }
{
    degrees.fill(0);
    for p in positions {
        let i = *p as usize;
        if i < degrees.len() {
            degrees[i] += 1;
        }
    }
}

// Stays: the same in words of half the width, as admission holds its counts on the stack.
fn count_narrowly(positions: &[u16], degrees: &mut [u16])
    requires few { length positions.now ≤ 8192 }
    requires clear { AllBelow (λ i. slice_index degrees.old i ≡ 0) (length degrees.old) }
    ensures { AllBelow (λ i. slice_index degrees.new i ≡ degree positions.now i) (length degrees.old) }
{
    for p in positions {
        let i = *p as usize;
        if i < degrees.len() {
            degrees[i] += 1;
        }
    }
}

fn rises_at(positions: &[u16], j: usize) -> bool
    requires { (0 < j) × (j < length positions.now) }
    ensures { MatchBool result
        (slice_index positions.now (j - 1) < slice_index positions.now j)
        (slice_index positions.now j ≤ slice_index positions.now (j - 1)) }
{
    positions[j - 1] < positions[j]
}

// The first entry that is not below `n`, or not above the entry before it in its check.
// Stays: the check that an entry lies in is counted, since one loop over all entries is plainer than one in another.
fn first_wrong_entry(n: usize, positions: &[u16], ends: &[u16]) -> Option<usize>
    requires some { 1 ≤ length ends.now }
    requires checks { AllBelow (SoundCheck positions.now ends.now) (length ends.now) }
    ensures { MatchOption result
        (AllBelow (SoundEntry n positions.now ends.now) (length positions.now))
        (FirstFault (SoundEntry n positions.now ends.now) (length positions.now)) }
{
    let mut check = 0usize;
    for (j, position) in positions.iter().enumerate() {
        if *position as usize >= n {
            return Some(j);
        }
        if ends[check] as usize == j {
            check += 1;
        } else if j > 0 && !rises_at(positions, j) {
            return Some(j);
        }
    }
    None
}

// The first position that no check or more than 16 hold.
fn first_wrong_position(n: usize, positions: &[u16]) -> Option<usize>
    requires few { length positions.now ≤ 8192 }
    requires width { n ≤ 2048 }
    ensures { MatchOption result (AllBelow (SoundPosition positions.now) n) (FirstFault (SoundPosition positions.now) n) }
{
    let mut degrees = [0u16; MOST_POSITIONS];
    count_narrowly(positions, &mut degrees);
    for (i, degree) in degrees[0..n].iter().enumerate() {
        if *degree < 1 || *degree > MOST_CHECKS_HELD {
            return Some(i);
        }
    }
    None
}

// Whether these runs are a matrix, or the refusal that is due.
// Stays: sizes and runs come in apart and as plain numbers, a rule of the project, so that wrong ones can be refused.
pub fn admit_runs(n: usize, m: usize, positions: &[u16], ends: &[u16]) -> Result<(), MatrixRefusal>
    ensures { MatchResult result (λ _. Admissible n m positions.now ends.now) (Refused n m positions.now ends.now) }
{
    if !runs_are_sound(n, m, positions, ends) {
        return Err(MatrixRefusal::WrongSize);
    }
    if let Some(k) = first_wrong_check(positions, ends) {
        return Err(MatrixRefusal::WrongCheck(k));
    }
    if let Some(j) = first_wrong_entry(n, positions, ends) {
        return Err(MatrixRefusal::WrongEntry(j));
    }
    if let Some(i) = first_wrong_position(n, positions) {
        return Err(MatrixRefusal::WrongPosition(i));
    }
    Ok(())
}

// No two refusals are due at once, and none where the runs are a matrix.
pub fn one_refusal_is_due()
    ensures { (n m : ℕ) (positions ends : List ℕ) → OneRefusal n m positions ends }
{}
