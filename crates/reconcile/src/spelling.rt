// What a reply prints.
ghost use Rattle.std.specs.Prelude.{◌≡◌, ◌++◌, codes, IfOk, IfSome};
ghost use Rattle.std.specs.String.{string_bytes};
ghost use Rattle.runs.specs.Of.{bits_of};
ghost use Rattle.reconcile.specs.Spelling.{bit_digit, bit_digits, run_digits, spaced};

use runs::Run;
use std::alloc::{AllocError, Global};
use std::fmt::{Display, Write};

fn digit(bit: u8) -> char
    ensures { result ≡ bit_digit bit }
{
    // A sum and no choice, since a branch on each bit of a key is guessed wrong half the time.
    char::from(b'0' + u8::from(bit != 0))
}

// Bits as digits.
#[tactic(auto, using(crate::proofs::SpellingLemmas::encode_bits))]
pub fn spell_bits(heap: Global, bits: &[u8]) -> Result<String, AllocError>
    ensures { IfOk result (λ text. string_bytes text ≡ bit_digits bits.now) }
{
    bits.iter().map(|bit| digit(*bit)).collect(heap)
}

// The bits of a frame's run as digits; the empty run is a dash.
pub fn spell_run(heap: Global, run: &Run<'_>) -> Result<String, AllocError>
    ensures { IfOk result (λ text. string_bytes text ≡ run_digits (bits_of run.now)) }
{
    if run.len() == 0 {
        return String::from_str(heap, "-");
    }
    (0..run.len()).map(|i| digit(run.bit(i))).collect(heap)
}

// Numbers behind single spaces.
pub fn spell_numbers(heap: Global, numbers: &[u32]) -> Result<String, AllocError>
    ensures { IfOk result (λ text. string_bytes text ≡ spaced numbers.now) }
{
    let mut text = String::new(heap);
    for x in numbers {
        write!(text, " {x}")?;
    }
    Ok(text)
}

// A refused call: the command, and what the refusal tells.
pub fn refused<T: Display + Drop>(
    heap: Global,
    command: &str,
    told: T,
) -> Result<String, AllocError>
    ensures { IfSome (T.output told) (λ shown. IfOk result (λ text.
        string_bytes text ≡ command.now ++ codes " refused " ++ shown)) }
{
    format!(in heap; "{command} refused {told}")
}
