//! Why a line can't be read.
ghost use Rattle.std.specs.Prelude.{Some};
ghost use Rattle.lines.specs.Fault.{shown_fault};

use std::error::Error;
use std::fmt;

/// A refusal of one line. Fields are counted from 1, the word in front not among them.
#[derive(Clone, Copy, PartialEq, Eq, Debug)]
pub enum LineFault {
    /// The line begins with no word that is known.
    UnknownWord,
    /// The line ends before this field.
    Missing(u8),
    /// This field has something other than digits.
    NotANumber(u8),
    /// The number in this field is over the most that fits it.
    TooLarge(u8, u64),
    /// A word is left over behind the last field.
    Surplus,
}

impl fmt::Display for LineFault {
    ghost output = { λ fault. Some (shown_fault fault) };

    fn fmt<W: fmt::Write>(&self, f: &mut fmt::Formatter<W>) -> fmt::Result {
        match self {
            LineFault::UnknownWord => write!(f, "the first word is not known"),
            LineFault::Missing(field) => write!(f, "field {field} is missing"),
            LineFault::NotANumber(field) => write!(f, "field {field} is not a number"),
            LineFault::TooLarge(field, most) => write!(f, "field {field} is larger than {most}"),
            LineFault::Surplus => write!(f, "a word is left over behind the last field"),
        }
    }
}

impl Error for LineFault {}
