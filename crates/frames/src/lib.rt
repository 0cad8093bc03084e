#![tactic(auto)]

// Frames: what one end tells the other, as bytes.
mod frame;
mod kind;
mod numbers;
mod parts;
mod reading;
mod refusal;
mod round;
mod side;
mod worked;
mod writing;

pub use frame::{Frame, HEAD};
pub use kind::{Kind, UnknownKind};
pub use reading::read;
pub use refusal::FrameRefusal;
pub use round::Round;
pub use side::{Side, UnknownSide};
pub use worked::{worked_disclosure, worked_refusal, worked_syndrome};
pub use writing::{write_disclosure, write_syndrome};
