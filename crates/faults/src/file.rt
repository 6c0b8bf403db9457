//! Why a session file, or a record of it, is refused.
ghost use Rattle.std.specs.Prelude.{◌≡◌};
ghost use Rattle.faults.specs.Files.{fault_number, fault_place};
ghost use Rattle.faults.specs.declared.layer.Layer.TheVariants.{File as FileLayer};

use crate::layer::Layer;
use crate::record::RecordFault;
use crate::section::Section;

/// A refusal of a file, with what its place is told from.
#[derive(Clone, Copy, PartialEq, Eq, Debug)]
pub enum FileFault {
    /// The file has this length, under the header's 16 bytes.
    Short(usize),
    /// The file begins with other letters.
    Letters,
    /// This section starts before byte 16 or passes the end.
    Section(Section),
    /// The two sections share a byte.
    Overlap,
    /// There is no record of this number.
    NoRecord(usize),
    /// The event of this number can't be read or written.
    Record(usize, RecordFault),
    /// The memory is too short for a file of so many records.
    NoRoom,
    /// A count is over 65,535.
    TooMany,
    /// The file has over 65,536 bytes.
    Oversize,
}

impl FileFault {
    /// The number that the refusal is printed under.
    pub fn number(self) -> u8
        ensures { result ≡ fault_number self }
    {
        // By `match`, since `as` takes only an enum without fields.
        match self {
            FileFault::Short(_) => 28,
            FileFault::Letters => 29,
            FileFault::Section(_) => 30,
            FileFault::Overlap => 31,
            FileFault::NoRecord(_) => 32,
            FileFault::Record(_, fault) => fault.number(),
            FileFault::NoRoom => 35,
            FileFault::TooMany => 36,
            FileFault::Oversize => 38,
        }
    }

    /// The layer of every refusal of a file.
    pub fn layer(self) -> Layer
        ensures { result ≡ FileLayer }
    {
        Layer::File
    }

    /// Where the refusal lies: a length, an offset in the header, or a record's number.
    pub fn place(self) -> usize
        ensures { result ≡ fault_place self }
    {
        match self {
            FileFault::Short(length) => length,
            FileFault::Section(section) => section.offset_at(),
            FileFault::Overlap => 12,
            FileFault::NoRecord(number) | FileFault::Record(number, _) => number,
            FileFault::Letters | FileFault::NoRoom | FileFault::TooMany | FileFault::Oversize => 0,
        }
    }
}
