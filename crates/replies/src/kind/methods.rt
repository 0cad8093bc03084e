ghost use Rattle.std.specs.Prelude.{◌≡◌};
ghost use Rattle.std.specs.Option.{ok_or};
ghost use Rattle.replies.specs.Kinds.{kind_number, kind_of};

use super::{Kind, UnknownKind};

impl From<Kind> for u8 {
    ghost from_gives = { λ kind number. number ≡ kind_number kind };

    fn from(kind: Kind) -> u8 {
        match kind {
            Kind::Raw => 0,
            Kind::Punctured => 1,
            Kind::Shortened => 2,
        }
    }
}

// The kind with this number, if there is one.
impl TryFrom<u8> for Kind {
    type Error = UnknownKind;

    ghost try_from_gives = { λ number kind. kind ≡ ok_or (kind_of number) (record { 0 = number }) };

    fn try_from(number: u8) -> Result<Kind, UnknownKind> {
        match number {
            0 => Ok(Kind::Raw),
            1 => Ok(Kind::Punctured),
            2 => Ok(Kind::Shortened),
            _ => Err(UnknownKind(number)),
        }
    }
}
