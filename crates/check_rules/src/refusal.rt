// Why tables of beliefs are not admitted, with the entry at fault, counted from 1.
#[derive(Clone, Copy, PartialEq, Eq, Debug)]
pub enum TableRefusal {
    // A table has no entry or over 4,095, or the raw beliefs are not twelve.
    WrongLength,
    // The entry is over the count of sums, or over the entry before it.
    WrongF2a(usize),
    // The entry is over the count of magnitudes, or over the entry before it.
    WrongA2f(usize),
    // The raw belief is 0, or over the count of magnitudes.
    WrongRaw(usize),
}

// What a refusal of tables tells: its number, the table (0 is f2a, 1 is a2f, 2 is the raw beliefs), and the entry.
// Stays: apart from the trait of refusals, as a place there is one number and here two, the table's and the entry's,
// 0 where none is told.
#[derive(Clone, Copy, PartialEq, Eq, Debug)]
pub struct TableTold {
    pub number: u8,
    pub table: u8,
    pub entry: usize,
}

mod methods;
