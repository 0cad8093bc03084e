// Why runs are no matrix, with the place at fault.
#[derive(Clone, Copy, PartialEq, Eq, Debug)]
pub enum MatrixRefusal {
    // A size or the count of ends is outside its limits.
    WrongSize,
    // An end falls, the check is empty or over 32, or the last end is not the count of entries.
    WrongCheck(usize),
    // The entry's position is not below the width, or not rising in its check.
    WrongEntry(usize),
    // The position lies in no check, or in over 16.
    WrongPosition(usize),
}

// Why a key has no syndrome in this buffer.
#[derive(Clone, Copy, PartialEq, Eq, Debug)]
pub enum SyndromeRefusal {
    // The key's place is missing, extra or no bit.
    WrongKey(usize),
    // The buffer is shorter than this.
    ShortBuffer(usize),
}

// Why a syndrome under lent runs is refused.
#[derive(Clone, Copy, PartialEq, Eq, Debug)]
pub enum CallRefusal {
    Matrix(MatrixRefusal),
    Syndrome(SyndromeRefusal),
}

mod methods;
