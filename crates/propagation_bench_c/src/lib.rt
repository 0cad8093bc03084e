#![tactic(auto)]

// What the benchmark's C links: the two functions under their C names.
// Stays: they stand here again, as what C links is a crate of its own.
use std::alloc::Global;

#[unsafe(no_mangle)]
pub extern "C" fn propagate_by_offset(
    heap: Global,
    n: usize,
    m: usize,
    positions: &[u16],
    ends: &[u16],
    difference: &[u8],
    q: u8,
    limit: u8,
    times: u32,
    pattern: &mut [u8],
    confidence: &mut [u32],
    work: &mut [i32],
) -> bool {
    propagation_bench::propagate_by_offset(
        heap, n, m, positions, ends, difference, q, limit, times, pattern, confidence, work,
    )
}

#[unsafe(no_mangle)]
pub extern "C" fn propagate_by_tables<'a>(
    heap: Global,
    n: usize,
    m: usize,
    positions: &[u16],
    ends: &[u16],
    f2a: &'a [u16],
    a2f: &'a [u16],
    raw: &'a [u16],
    difference: &[u8],
    q: u8,
    limit: u8,
    times: u32,
    pattern: &mut [u8],
    confidence: &mut [u32],
    work: &mut [i32],
) -> bool {
    propagation_bench::propagate_by_tables(
        heap, n, m, positions, ends, f2a, a2f, raw, difference, q, limit, times, pattern,
        confidence, work,
    )
}
