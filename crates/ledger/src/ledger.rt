ghost use Rattle.std.specs.Prelude.{◌≤◌, length};

use crate::line::Line;

// A run of lines, the first of them in use, read and filled in place.
// Stays: a lent run with its count in use, a rule of the project.
#[derive(Drop)]
pub struct Ledger<'a> {
    lines: &'a mut [Line],
    used: usize,
    ghost within: { used ≤ length lines.now },
    ghost few: { used ≤ 4096 },
}

mod methods;
