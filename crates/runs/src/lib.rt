#![tactic(auto)]

// Runs of bits, packed into bytes from the highest bit on.
mod packing;
mod run;
mod scan;

pub use packing::{bit_of, clear, pack, pack_all, put_bit, unpack};
pub use run::Run;
pub use scan::{bit_at, bytes_for, last_run_fault, run_fault};
