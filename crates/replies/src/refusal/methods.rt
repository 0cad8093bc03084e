ghost use Rattle.replies.specs.Refusals.{open_told, say_told, hear_told, turn_told, key_told, close_told};

use super::{CloseRefusal, HearRefusal, KeyRefusal, OpenRefusal, SayRefusal, TurnRefusal};
use refusals::{Refusal, Told};

impl Refusal for OpenRefusal {
    ghost tells = { open_told };

    fn told(&self) -> Told {
        let (number, place) = match *self {
            OpenRefusal::AlreadyOpen => (7, 0),
            OpenRefusal::WrongPlan => (8, 0),
            OpenRefusal::WrongKey(i) => (9, i),
            OpenRefusal::NoMemory => (99, 0),
        };
        Told { number, place }
    }
}

impl Refusal for SayRefusal {
    ghost tells = { say_told };

    fn told(&self) -> Told {
        let (number, place) = match *self {
            SayRefusal::NotOpen => (10, 0),
            SayRefusal::Ahead => (11, 0),
            SayRefusal::ShortBuffer(needed) => (12, needed),
        };
        Told { number, place }
    }
}

impl Refusal for HearRefusal {
    ghost tells = { hear_told };

    fn told(&self) -> Told {
        let (number, place) = match *self {
            HearRefusal::NotOpen => (10, 0),
            HearRefusal::WrongByte(i) => (13, i),
            HearRefusal::Foreign => (14, 0),
            HearRefusal::Ahead => (15, 0),
            HearRefusal::Differs(round) => (16, usize::from(round)),
        };
        Told { number, place }
    }
}

// A turn names no place.
impl Refusal for TurnRefusal {
    ghost tells = { turn_told };

    fn told(&self) -> Told {
        let (number, place) = match *self {
            TurnRefusal::NotOpen => (10, 0),
            TurnRefusal::Finished => (17, 0),
            TurnRefusal::NotHeard => (18, 0),
            TurnRefusal::OtherMatrix => (19, 0),
            TurnRefusal::ShortMemory => (20, 0),
        };
        Told { number, place }
    }
}

impl Refusal for KeyRefusal {
    ghost tells = { key_told };

    fn told(&self) -> Told {
        let (number, place) = match *self {
            KeyRefusal::NotOpen => (10, 0),
            KeyRefusal::NotSettled => (21, 0),
            KeyRefusal::ShortBuffer(needed) => (12, needed),
        };
        Told { number, place }
    }
}

impl Refusal for CloseRefusal {
    ghost tells = { close_told };

    fn told(&self) -> Told {
        let (number, place) = match *self {
            CloseRefusal::NotOpen => (10, 0),
        };
        Told { number, place }
    }
}
