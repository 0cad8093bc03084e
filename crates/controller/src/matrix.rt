ghost use Rattle.std.specs.Prelude.{◌≡◌};
ghost use Rattle.codes.specs.Refusals.{matrix_told, call_told};
ghost use Rattle.controller.specs.Replies.{reply, outcome_told, AdmitReplies, SyndromeReplies};

use crate::reply::Reply;
use crate::run::{read_run, test_run};
use codes::{CallRefusal, MOST_CHECKS, MOST_ENTRIES, MatrixRefusal, admit_runs, syndrome_of};

fn admit(n: usize, m: usize, positions: &[u8], ends: &[u8]) -> Result<(), MatrixRefusal>
    ensures { AdmitReplies n m positions.now ends.now (reply (outcome_told matrix_told result)) }
{
    test_run(positions, MOST_ENTRIES)?;
    test_run(ends, MOST_CHECKS)?;
    // Stays: arrays of fixed size in each call, as the C interface allocates nothing; made only for runs that may be a matrix's.
    let mut position_run = [0u16; MOST_ENTRIES];
    let mut end_run = [0u16; MOST_CHECKS];
    let positions = read_run(positions, &mut position_run);
    let ends = read_run(ends, &mut end_run);
    admit_runs(n, m, positions, ends)
}

fn syndrome(
    n: usize,
    m: usize,
    positions: &[u8],
    ends: &[u8],
    key: &[u8],
    out: &mut [u8],
) -> Result<(), CallRefusal>
    ensures { SyndromeReplies n m positions.now ends.now key.now out.old out.new (reply (outcome_told call_told result)) }
{
    test_run(positions, MOST_ENTRIES)?;
    test_run(ends, MOST_CHECKS)?;
    // Stays: arrays of fixed size in each call, as the C interface allocates nothing; made only for runs that may be a matrix's.
    let mut position_run = [0u16; MOST_ENTRIES];
    let mut end_run = [0u16; MOST_CHECKS];
    let positions = read_run(positions, &mut position_run);
    let ends = read_run(ends, &mut end_run);
    syndrome_of(n, m, positions, ends, key, out)
}

// Whether two runs are a matrix of `n` positions and `m` checks.
// Stays: sizes and runs come in apart, as C hands them in.
pub fn reconcile_admit_matrix(n: usize, m: usize, positions: &[u8], ends: &[u8]) -> Reply
    ensures { AdmitReplies n m positions.now ends.now result }
{
    Reply::from(admit(n, m, positions, ends))
}

// Writes the syndrome of a key to the front of a buffer.
pub fn reconcile_syndrome(
    n: usize,
    m: usize,
    positions: &[u8],
    ends: &[u8],
    key: &[u8],
    out: &mut [u8],
) -> Reply
    ensures { SyndromeReplies n m positions.now ends.now key.now out.old out.new result }
{
    Reply::from(syndrome(n, m, positions, ends, key, out))
}
