//! Why one event can't be read or written, wherever it stands in a file.
ghost use Rattle.std.specs.Prelude.{◌≡◌};
ghost use Rattle.faults.specs.Records.{record_number};

/// A refusal of one event.
#[derive(Clone, Copy, PartialEq, Eq, Debug)]
pub enum RecordFault {
    /// An opening's row does not have 14 bytes.
    RowLength = 9,
    /// The event's kind is unknown.
    UnknownKind = 33,
    /// A byte that must be zero is not.
    NotZero = 34,
}

impl RecordFault {
    /// The number that the refusal is printed under.
    pub fn number(self) -> u8
        ensures { result ≡ record_number self }
    {
        self as u8
    }
}
