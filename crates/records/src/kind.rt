//! The kind of an event, which its first byte says.
ghost use Rattle.records.specs.Kind.{Decodes};

use faults::RecordFault;

/// What an event is, without its fields; its number is the byte that stands for it.
#[derive(Clone, Copy, PartialEq, Eq, Debug)]
pub(crate) enum Kind {
    Open = 1,
    NewStep = 2,
    Raise = 3,
    Close = 4,
    Changeover = 5,
}

impl TryFrom<u8> for Kind {
    type Error = RecordFault;

    ghost try_from_gives = { Decodes };

    fn try_from(byte: u8) -> Result<Self, RecordFault> {
        match byte {
            1 => Ok(Kind::Open),
            2 => Ok(Kind::NewStep),
            3 => Ok(Kind::Raise),
            4 => Ok(Kind::Close),
            5 => Ok(Kind::Changeover),
            _ => Err(RecordFault::UnknownKind),
        }
    }
}
