// Why a frame is not read or written.
#[derive(Clone, Copy, PartialEq, Eq, Debug)]
pub enum FrameRefusal {
    // No matrix has these sizes.
    WrongSize,
    // The byte at this place is missing, extra or not as a frame has it.
    WrongByte(usize),
    // The buffer is shorter than this.
    ShortBuffer(usize),
}
