ghost use Rattle.std.specs.Prelude.{◌≡◌, ◌*◌, ◌/◌, ◌≤◌, length, MatchResult};
ghost use Rattle.controller.specs.Runs.{numbers16, Whole};

use codes::MatrixRefusal;

// Refuses an odd run, and one of more numbers than a matrix has.
pub(crate) fn test_run(bytes: &[u8], most: usize) -> Result<(), MatrixRefusal>
    ensures { MatchResult result
        (λ _. Whole bytes.now × (length bytes.now ≤ 2 * most))
        (λ e. (e ≡ MatrixRefusal.WrongSize) × ¬ (Whole bytes.now × (length bytes.now ≤ 2 * most))) }
{
    if bytes.len() % 2 != 0 || bytes.len() / 2 > most {
        return Err(MatrixRefusal::WrongSize);
    }
    Ok(())
}

// Reads a run of 16-bit numbers, highest byte first, to the front of a buffer.
pub(crate) fn read_run<'a>(bytes: &[u8], buffer: &'a mut [u16]) -> &'a [u16]
    requires { length bytes.now ≤ 2 * length buffer.now }
    ensures { result.now ≡ numbers16 bytes.now }
{
    let run = &mut buffer[..bytes.len() / 2];
    read_numbers(bytes, run);
    run
}

#[tactic(auto, using(crate::proofs::Numbers::all_read))]
fn read_numbers(bytes: &[u8], run: &mut [u16])
    requires { length run.old ≡ length bytes.now / 2 }
    ensures { run.new ≡ numbers16 bytes.now }
{
    // Stays: each pair of bytes by its index, since the proof over a zip of `iter_mut` did not close.
    for (i, number) in run.iter_mut().enumerate() {
        *number = u16::from_be_bytes([bytes[2 * i], bytes[2 * i + 1]]);
    }
}
