// Why a call of an end is refused, one enum a call, with the place at fault.
#[derive(Clone, Copy, PartialEq, Eq, Debug)]
pub enum OpenRefusal {
    AlreadyOpen,
    // The matrix number, kinds, counts, step, cap, side or error class.
    WrongPlan,
    // The key's place is missing, extra, no bit, or shortened and 1.
    WrongKey(usize),
    NoMemory,
}

#[derive(Clone, Copy, PartialEq, Eq, Debug)]
pub enum SayRefusal {
    NotOpen,
    // The round is ahead of the present one.
    Ahead,
    // The buffer is shorter than this.
    ShortBuffer(usize),
}

#[derive(Clone, Copy, PartialEq, Eq, Debug)]
pub enum HearRefusal {
    NotOpen,
    // The bytes are no frame from this one on.
    WrongByte(usize),
    // Of another block, or of the end's own side.
    Foreign,
    // The round is ahead of the present one.
    Ahead,
    // The frame differs from what was heard or named in this round.
    Differs(u16),
}

#[derive(Clone, Copy, PartialEq, Eq, Debug)]
pub enum TurnRefusal {
    NotOpen,
    Finished,
    // The present round's frame has not been heard.
    NotHeard,
    // Not the block's matrix, by number or sizes.
    OtherMatrix,
    // A buffer or the working memory is short.
    ShortMemory,
}

#[derive(Clone, Copy, PartialEq, Eq, Debug)]
pub enum KeyRefusal {
    NotOpen,
    NotSettled,
    // The buffer is shorter than this.
    ShortBuffer(usize),
}

#[derive(Clone, Copy, PartialEq, Eq, Debug)]
pub enum CloseRefusal {
    NotOpen,
}

mod methods;
