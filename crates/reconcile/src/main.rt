#![tactic(auto)]

// Replays a script of calls from standard input and prints what each did.
ghost use Rattle.std.specs.Prelude.{◌↔◌, IsTrue};
ghost use Rattle.reconcile.specs.Lines.{IsPassedOver};

mod command;
mod decoding;
mod desk;
mod error;
mod spelling;
mod words;

use desk::Desk;
use error::LineError;
use std::alloc::Global;
use std::io;
use std::io::{BufRead, BufReader};
use std::str::from_utf8;

// What a line says, without its line end.
fn reply(desk: &mut Desk, heap: Global, line: &[u8]) -> Result<String, LineError> {
    desk.reply(heap, from_utf8(line)?)
}

// A comment, or nothing but spaces.
fn is_passed_over(line: &[u8]) -> bool
    ensures { IsTrue result ↔ IsPassedOver line.now }
{
    line.first() == Some(&b'#') || line.iter().all(|b| *b == b' ')
}

fn main(rt: HostRuntime) -> io::Result<()> {
    let mut desk = Desk::new(rt.alloc());
    let mut input = BufReader::new(rt.alloc(), rt.stdin())?;
    // Stays: one buffer for all lines, as `split` would allocate one for each.
    let mut line = Vec::new(rt.alloc());
    for count in 1..u64::MAX {
        line.clear();
        if input.read_until(b'\n', &mut line)? == 0 {
            break;
        }
        if line.last() == Some(&b'\n') {
            let _ = line.pop();
        }
        if is_passed_over(line.as_slice()) {
            continue;
        }
        match reply(&mut desk, rt.alloc(), line.as_slice()) {
            Ok(text) => println!(rt; "{text}")?,
            Err(LineError::NotUnderstood) => println!(rt; "line {count} not understood")?,
            Err(LineError::NoMemory(error)) => return Err(error.into()),
        }
    }
    Ok(())
}
