ghost use Rattle.frames.specs.Numbers.{frame_told, IsNumberOfSide, SideNumbered, IsNumberOfKind, KindNumbered};

use crate::kind::{Kind, UnknownKind};
use crate::refusal::FrameRefusal;
use crate::side::{Side, UnknownSide};
use refusals::{Refusal, Told};

impl Refusal for FrameRefusal {
    ghost tells = { frame_told };

    fn told(&self) -> Told {
        let (number, place) = match *self {
            FrameRefusal::WrongSize => (1, 0),
            FrameRefusal::WrongByte(place) => (13, place),
            FrameRefusal::ShortBuffer(needed) => (12, needed),
        };
        Told { number, place }
    }
}

impl From<Side> for u8 {
    ghost from_gives = { IsNumberOfSide };

    fn from(side: Side) -> u8 {
        match side {
            Side::Alice => 0,
            Side::Bob => 1,
        }
    }
}

impl TryFrom<u8> for Side {
    type Error = UnknownSide;

    ghost try_from_gives = { SideNumbered };

    fn try_from(number: u8) -> Result<Side, UnknownSide> {
        match number {
            0 => Ok(Side::Alice),
            1 => Ok(Side::Bob),
            _ => Err(UnknownSide(number)),
        }
    }
}

impl From<Kind> for u8 {
    ghost from_gives = { IsNumberOfKind };

    fn from(kind: Kind) -> u8 {
        match kind {
            Kind::Syndrome => 1,
            Kind::Disclosure => 2,
        }
    }
}

impl TryFrom<u8> for Kind {
    type Error = UnknownKind;

    ghost try_from_gives = { KindNumbered };

    fn try_from(number: u8) -> Result<Kind, UnknownKind> {
        match number {
            1 => Ok(Kind::Syndrome),
            2 => Ok(Kind::Disclosure),
            _ => Err(UnknownKind(number)),
        }
    }
}
