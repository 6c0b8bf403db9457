//! The header of a session file, and where it says that a record stands.
ghost use Rattle.std.specs.Prelude.{◌≡◌};
ghost use Rattle.sessions.specs.Layout.{count, start, finish};
ghost use Rattle.sessions.specs.Reading.{opened, placed};

use faults::{FileFault, Section};
use std::ops::Range;

/// The letters that a session file begins with.
pub const LETTERS: [u8; 4] = *b"SOSA";

/// The 16 bytes that a file begins with. Each `unwrap` below is proved to find its bytes, and tests nothing.
#[derive(Clone, Copy)]
pub(crate) struct Header {
    pub(crate) bytes: [u8; 16],
}

impl Header {
    /// How many records this section has.
    pub(crate) fn count(self, section: Section) -> usize
        ensures { result ≡ count section self.bytes }
    {
        let at = match section {
            Section::Deposits => 4,
            Section::Events => 6,
        };
        usize::from(u16::from_be_bytes(*self.bytes[at..].first_chunk().unwrap()))
    }

    // Where this section starts and ends.
    fn range(self, section: Section) -> Range<usize>
        ensures start { result.start ≡ start section self.bytes }
        ensures end { result.end ≡ finish section self.bytes }
    {
        let at = section.offset_at();
        let start = u32::from_be_bytes(*self.bytes[at..].first_chunk().unwrap()) as usize;
        start..start + section.width() * self.count(section)
    }

    /// Where the record of this number begins.
    pub(crate) fn place(self, section: Section, number: usize) -> Result<usize, FileFault>
        ensures { result ≡ placed section self.bytes number }
    {
        if number == 0 || number > self.count(section) {
            return Err(FileFault::NoRecord(number));
        }
        Ok(self.range(section).start + section.width() * (number - 1))
    }
}

/// Whether these bytes are a session file that may be read.
pub(crate) fn check(bytes: &[u8]) -> Result<(), FileFault>
    ensures { result ≡ opened bytes.now }
{
    let Some(first) = bytes.first_chunk().copied() else {
        return Err(FileFault::Short(bytes.len()));
    };
    if !bytes.starts_with(&LETTERS) {
        return Err(FileFault::Letters);
    }
    let header = Header { bytes: first };
    // Each section's test stands here, since the last test is of both.
    let deposits = header.range(Section::Deposits);
    if deposits.start < 16 || deposits.end > bytes.len() {
        return Err(FileFault::Section(Section::Deposits));
    }
    let events = header.range(Section::Events);
    if events.start < 16 || events.end > bytes.len() {
        return Err(FileFault::Section(Section::Events));
    }
    if deposits.start.max(events.start) < deposits.end.min(events.end) {
        return Err(FileFault::Overlap);
    }
    Ok(())
}
