// What a script line asks for.
ghost use Rattle.reconcile.specs.Lines.{KindNamed};

use crate::error::LineError;
use crate::words::{digits, hexadecimal, number, run, states};
use decoders::State;
use std::alloc::Global;
use std::str::FromStr;

#[derive(Clone, Copy, PartialEq, Eq)]
pub enum Kind {
    Offset,
    Table,
    Flipping,
}

impl FromStr for Kind {
    type Err = LineError;

    ghost from_str_gives = { KindNamed };

    fn from_str(word: &str) -> Result<Kind, LineError> {
        match word {
            "offset" => Ok(Kind::Offset),
            "table" => Ok(Kind::Table),
            "flipping" => Ok(Kind::Flipping),
            _ => Err(LineError::NotUnderstood),
        }
    }
}

// A decoder's kind and its limit, which counts as the nearer end where it is out of range.
#[derive(Clone, Copy)]
pub struct Choice {
    pub kind: Kind,
    pub limit: u64,
}

// The tables of beliefs of a table decoder.
#[derive(Drop)]
pub struct Tables {
    pub f2a: Vec<u16>,
    pub a2f: Vec<u16>,
    pub raw: Vec<u16>,
}

// What a decode line hands in: the runs, the error class and the lengths of the buffers.
#[derive(Drop)]
pub struct Asked {
    pub matrix: u32,
    pub difference: Vec<u8>,
    pub states: Vec<State>,
    pub q: u64,
    pub pattern: usize,
    pub confidence: usize,
    pub work: usize,
}

#[derive(Drop)]
pub enum Command {
    Matrix {
        id: u32,
        n: usize,
        m: usize,
        positions: Vec<u16>,
        ends: Vec<u16>,
    },
    Syndrome {
        id: u32,
        key: Vec<u8>,
        room: usize,
    },
    Frame {
        n: usize,
        m: usize,
        bytes: Vec<u8>,
    },
    Tables(Tables),
    Decoder(Vec<Choice>),
    Decode(Asked),
}

// The command of a line.
pub fn read_command(heap: Global, line: &str) -> Result<Command, LineError> {
    let words: Vec<&str> = line.split(' ').collect(heap)?;
    let command = match words.as_slice() {
        ["matrix", id, n, m, positions, ends] => Command::Matrix {
            id: number(id)?,
            n: number(n)?,
            m: number(m)?,
            positions: run(heap, positions)?,
            ends: run(heap, ends)?,
        },
        ["syndrome", id, key, room] => Command::Syndrome {
            id: number(id)?,
            key: digits(heap, key)?,
            room: number(room)?,
        },
        ["frame", n, m, bytes] => Command::Frame {
            n: number(n)?,
            m: number(m)?,
            bytes: hexadecimal(heap, bytes)?,
        },
        ["tables", f2a, a2f, raw] => Command::Tables(Tables {
            f2a: run(heap, f2a)?,
            a2f: run(heap, a2f)?,
            raw: run(heap, raw)?,
        }),
        ["decoder", choices @ ..] if matches!(choices.len(), 2 | 4 | 6) => Command::Decoder(
            choices
                .chunks_exact(2)
                .map(|pair| read_choice(pair))
                .try_collect(heap)?,
        ),
        [
            "decode",
            matrix,
            difference,
            letters,
            q,
            pattern,
            confidence,
            work,
        ] => Command::Decode(Asked {
            matrix: number(matrix)?,
            difference: digits(heap, difference)?,
            states: states(heap, letters)?,
            q: number(q)?,
            pattern: number(pattern)?,
            confidence: number(confidence)?,
            work: number(work)?,
        }),
        _ => return Err(LineError::NotUnderstood),
    };
    Ok(command)
}

fn read_choice(pair: &[&str]) -> Result<Choice, LineError> {
    let [kind, limit] = pair else {
        return Err(LineError::NotUnderstood);
    };
    Ok(Choice {
        kind: kind.parse()?,
        limit: number(limit)?,
    })
}
