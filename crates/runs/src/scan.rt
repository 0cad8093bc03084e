ghost use Rattle.std.specs.Prelude.{◌≡◌, max, length, MatchOption};
ghost use Rattle.codes.specs.Places.{FirstFault};
ghost use Rattle.runs.specs.Bits.{bit_at, bytes_for, BeginsSound, SoundByte, SoundLast, WholeSound};

// How many bytes so many bits take.
pub fn bytes_for(width: usize) -> usize
    ensures { result ≡ bytes_for width }
{
    width.div_ceil(8)
}

// Bit i of packed bytes; past their end it is 0.
pub fn bit_at(bytes: &[u8], i: usize) -> u8
    ensures { result ≡ bit_at bytes.now i }
{
    let byte = bytes.get(i / 8).copied().unwrap_or(0);
    (byte >> (7 - i % 8)) % 2
}

// The first byte at fault where the bytes are to begin with a run of so many bits: one with an unused bit set, or the first missing one.
pub fn run_fault(width: usize, bytes: &[u8]) -> Option<usize>
    ensures { MatchOption result (BeginsSound width bytes.now) (FirstFault (SoundByte width bytes.now) (bytes_for width)) }
{
    if bytes.len() < bytes_for(width) {
        return Some(bytes.len());
    }

    // Only a byte that is not full has unused bits.
    let (full, used) = (width / 8, width % 8);
    if used > 0 && bytes[full] % (1 << (8 - used)) != 0 {
        Some(full)
    } else {
        None
    }
}

// The same where the bytes are to be that run and nothing more: a byte past it is at fault too.
#[tactic(auto, using(crate::proofs::Packed::long_enough))]
pub fn last_run_fault(width: usize, bytes: &[u8]) -> Option<usize>
    ensures { MatchOption result (WholeSound width bytes.now) (FirstFault (SoundLast width bytes.now) (max (length bytes.now) (bytes_for width))) }
{
    let needed = bytes_for(width);
    match run_fault(width, bytes) {
        None if bytes.len() > needed => Some(needed),
        fault => fault,
    }
}
