//! Why no session file is made of a text.
ghost use Rattle.std.specs.Prelude.{◌≡◌, Some};
ghost use Rattle.session_texts.specs.declared.fault.TextFault.TheVariants.{BadLine};
ghost use Rattle.session_texts.specs.declared.fault.MakeFault.TheVariants.{Memory};
ghost use Rattle.session_texts.specs.Faults.{shown_text, shown_make};

use lines::LineFault;
use std::alloc::AllocError;
use std::error::Error;
use std::fmt;

/// What is wrong with a line, where it stands in its text.
#[derive(Clone, Copy, PartialEq, Eq, Debug)]
pub enum TextFault {
    /// The line can't be read.
    BadLine(LineFault),
    /// A deposit after an event.
    LateDeposit,
    /// With this line the file would have over 65,536 bytes.
    Oversize,
}

impl fmt::Display for TextFault {
    ghost output = { λ fault. Some (shown_text fault) };

    fn fmt<W: fmt::Write>(&self, f: &mut fmt::Formatter<W>) -> fmt::Result {
        match self {
            TextFault::BadLine(fault) => write!(f, "{fault}"),
            TextFault::LateDeposit => write!(f, "a deposit stands after an event"),
            TextFault::Oversize => write!(f, "the file would have over 65536 bytes"),
        }
    }
}

impl Error for TextFault {}

impl From<LineFault> for TextFault {
    ghost from_gives = { λ line e. e ≡ BadLine line };

    fn from(line: LineFault) -> Self {
        Self::BadLine(line)
    }
}

/// Why no file was made.
#[derive(Clone, Copy, PartialEq, Eq, Debug)]
pub enum MakeFault {
    /// The line of this number, from 1, is at fault.
    Line(usize, TextFault),
    /// There was no memory.
    Memory,
}

impl fmt::Display for MakeFault {
    ghost output = { λ fault. Some (shown_make fault) };

    fn fmt<W: fmt::Write>(&self, f: &mut fmt::Formatter<W>) -> fmt::Result {
        match self {
            MakeFault::Line(number, fault) => write!(f, "line {number}: {fault}"),
            MakeFault::Memory => write!(f, "out of memory"),
        }
    }
}

impl Error for MakeFault {}

impl From<AllocError> for MakeFault {
    ghost from_gives = { λ _ e. e ≡ Memory };

    fn from(_error: AllocError) -> Self {
        Self::Memory
    }
}
