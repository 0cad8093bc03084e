#![tactic(auto)]

// What the benchmark, a C program, calls through propagation_bench_c: one question asked many times, by the offset rule or by tables.
use check_rules::{OffsetRule, TableRule};
use codes::{MOST_POSITIONS, Matrix};
use decoders::{Decoder, Inquiry, State};
use propagation::Propagation;
use std::alloc::Global;

// Asks the same question so many times; none where it is refused.
fn ask_often<D: Decoder + Drop>(
    mut decoder: D,
    inquiry: &Inquiry<'_>,
    times: u32,
    pattern: &mut [u8],
    confidence: &mut [u32],
    work: &mut [i32],
) -> Option<()> {
    for _ in 0..times {
        decoder.decode(inquiry, pattern, confidence, work).ok()?;
    }
    Some(())
}

fn matrix_of(heap: Global, n: usize, m: usize, positions: &[u16], ends: &[u16]) -> Option<Matrix> {
    let positions = positions.to_vec(heap).ok()?;
    let ends = ends.to_vec(heap).ok()?;
    Matrix::admit(1, n, m, positions, ends).ok()
}

// Stays: a parameter for each of C's, and a bool, as C calls it.
pub fn propagate_by_offset(
    heap: Global,
    n: usize,
    m: usize,
    positions: &[u16],
    ends: &[u16],
    difference: &[u8],
    q: u8,
    limit: u8,
    times: u32,
    pattern: &mut [u8],
    confidence: &mut [u32],
    work: &mut [i32],
) -> bool {
    let Some(matrix) = matrix_of(heap, n, m, positions, ends) else {
        return false;
    };
    let decoder = Propagation {
        rule: OffsetRule,
        limit,
    };
    let states = [State::Raw; MOST_POSITIONS];
    let inquiry = Inquiry {
        matrix: &matrix,
        difference,
        states: &states,
        q,
    };
    ask_often(decoder, &inquiry, times, pattern, confidence, work).is_some()
}

// Stays: the same, as C calls it.
pub fn propagate_by_tables<'a>(
    heap: Global,
    n: usize,
    m: usize,
    positions: &[u16],
    ends: &[u16],
    f2a: &'a [u16],
    a2f: &'a [u16],
    raw: &'a [u16],
    difference: &[u8],
    q: u8,
    limit: u8,
    times: u32,
    pattern: &mut [u8],
    confidence: &mut [u32],
    work: &mut [i32],
) -> bool {
    let Some(matrix) = matrix_of(heap, n, m, positions, ends) else {
        return false;
    };
    let Ok(rule) = TableRule::admit(f2a, a2f, raw) else {
        return false;
    };
    let decoder = Propagation { rule, limit };
    let states = [State::Raw; MOST_POSITIONS];
    let inquiry = Inquiry {
        matrix: &matrix,
        difference,
        states: &states,
        q,
    };
    ask_often(decoder, &inquiry, times, pattern, confidence, work).is_some()
}
