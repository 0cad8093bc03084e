// The words of a script line: numbers, and lists of numbers, digits, states or bytes.
ghost use Rattle.std.specs.Prelude.{◌≡◌, ◌≢◌, ◌<◌, ℕ, [], Ok, Err, length, codes, IfOk, IfErr, IsOkAnd, MatchResult};
ghost use Rattle.std.specs.Char.{is_ascii_digit};
ghost use Rattle.std.specs.Iterator.{IsFinite};
ghost use Rattle.std.specs.Iterator.Runs.{SomeRun, WholeRun, AnyItem};
ghost use Rattle.std.specs.List.{AllPass, AllZip};
ghost use Rattle.decoders.specs.declared.state.State.{State};
ghost use Rattle.reconcile.specs.Words.{IsJustRead, OrDash, IsNumber, IsDigit, IsLetter, IsHexadecimal, ReadAs, parts};

use crate::error::LineError;
use decoders::State;
use std::alloc::Global;
use std::str::FromStr;

// A number in decimal digits alone, so no sign.
pub fn number<T: FromStr>(word: &str) -> Result<T, LineError>
where
    T::Err: Drop,
    ensures { MatchResult result
        (λ x. AllPass is_ascii_digit word.now × T.from_str_gives word.now (Ok x))
        (λ e. (e ≡ LineError.NotUnderstood)
        × (AllPass is_ascii_digit word.now → (f : T.Err) × T.from_str_gives word.now (Err f))) }
{
    if !word.bytes().all(|b| b.is_ascii_digit()) {
        return Err(LineError::NotUnderstood);
    }
    word.parse().map_err(|_| LineError::NotUnderstood)
}

// What the parts of a word stand for; the empty list is a dash.
fn list<T: Drop, P: Iterator + Drop, F: Fn(P::Item) -> Result<T, LineError> + Drop>(
    heap: Global,
    word: &str,
    parts: P,
    read: F,
) -> Result<Vec<T>, LineError>
    requires can { P.can_next parts }
    requires ends { IsFinite (P.remaining parts) }
    requires callable { (f : F) (part : _) → F.pre f part }
    ensures some { IfOk result (λ _. 0 < length word.now) }
    ensures dash { word.now ≡ codes "-" → IsOkAnd result (λ v. v.items ≡ []) }
    ensures other { word.now ≢ codes "-" → IfOk result (λ v.
        WholeRun P.next_gives parts (ReadAs (λ part x. F.post read part (Ok x)) v.items)) }
    ensures refused { IfErr result (λ e. e ≡ LineError.NotUnderstood → 0 < length word.now
        → SomeRun P.next_gives parts (λ p. AnyItem p (λ part. F.post read part (Err e)))) }
{
    match word {
        "-" => Ok(Vec::new(heap)),
        "" => Err(LineError::NotUnderstood),
        _ => parts.map(read).try_collect(heap),
    }
}

// A run such as 3,6,9.
pub fn run(heap: Global, word: &str) -> Result<Vec<u16>, LineError>
    ensures { IsJustRead (OrDash word.now (AllZip IsNumber (parts word.now))) result }
{
    list(heap, word, word.split(','), number)
}

fn digit(letter: u8) -> Result<u8, LineError>
    ensures { MatchResult result
        (IsDigit letter)
        (λ e. (e ≡ LineError.NotUnderstood) × ((x : ℕ) → IsDigit letter x → ⊥)) }
{
    if letter.is_ascii_digit() {
        Ok(letter - b'0')
    } else {
        Err(LineError::NotUnderstood)
    }
}

// A digit a place, such as 101100.
pub fn digits(heap: Global, word: &str) -> Result<Vec<u8>, LineError>
    ensures { IsJustRead (OrDash word.now (AllZip IsDigit word.now)) result }
{
    list(heap, word, word.bytes(), digit)
}

fn state(letter: u8) -> Result<State, LineError>
    ensures { MatchResult result
        (IsLetter letter)
        (λ e. (e ≡ LineError.NotUnderstood) × ((s : State) → IsLetter letter s → ⊥)) }
{
    match letter {
        b'r' => Ok(State::Raw),
        b'p' => Ok(State::Punctured),
        b'0' => Ok(State::Known0),
        b'1' => Ok(State::Known1),
        _ => Err(LineError::NotUnderstood),
    }
}

// A letter a position: r raw, p punctured, 0 and 1 known.
pub fn states(heap: Global, word: &str) -> Result<Vec<State>, LineError>
    ensures { IsJustRead (OrDash word.now (AllZip IsLetter word.now)) result }
{
    list(heap, word, word.bytes(), state)
}

// Two hexadecimal digits a byte, in lower case.
pub fn hexadecimal(heap: Global, word: &str) -> Result<Vec<u8>, LineError>
    ensures { IsJustRead (OrDash word.now (IsHexadecimal word.now)) result }
{
    if word == "-" {
        return Ok(Vec::new(heap));
    }
    // Tested before memory is taken: a word that stands for no bytes asks for none.
    if word.is_empty() || word.len() % 2 != 0 {
        return Err(LineError::NotUnderstood);
    }
    if word
        .bytes()
        .any(|b| b.is_ascii_uppercase() || !b.is_ascii_hexdigit())
    {
        return Err(LineError::NotUnderstood);
    }
    let mut bytes = vec![in heap; 0u8; word.len() / 2]?;
    hex::decode_to_slice(word, bytes.as_mut_slice()).map_err(|_| LineError::NotUnderstood)?;
    Ok(bytes)
}
