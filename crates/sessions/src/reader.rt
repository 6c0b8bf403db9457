//! Reads a session file.
ghost use Rattle.std.specs.Prelude.{◌≡◌, ◌+◌, ◌≤◌, length, take, Ok, Err, IfOk, MatchResult};
ghost use Rattle.sessions.specs.Layout.{width};
ghost use Rattle.sessions.specs.Reading.{opened, admitted, count_in, located, of_number, deposit_at, event_at};
ghost use Rattle.records.specs.Event.{seen, decoded};

use crate::head::{Header, check};
use faults::{FileFault, Section};
use records::{Event, decode};

// The event that these bytes keep; its refusal tells the number of the event.
fn event_in(record: &[u8; 16], number: usize) -> Result<Event<&[u8]>, FileFault>
    ensures { seen result ≡ of_number number (decoded «record».now) }
{
    decode(record).map_err(|fault| FileFault::Record(number, fault))
}

/// The most bytes that a program takes as a session file.
pub const MOST_BYTES: usize = 65_536;

/// A session file over bytes that were lent. Records are numbered from 1.
#[derive(Clone, Copy)]
pub struct Reader<'a> {
    bytes: &'a [u8],
    ghost opens: { opened bytes.now ≡ Ok tt },
}

impl<'a> Reader<'a> {
    ghost use Rattle.sessions.specs.Lent.{lent};

    /// A reader of these bytes, if they are a session file.
    pub fn new(bytes: &'a [u8]) -> Result<Reader<'a>, FileFault>
        ensures { MatchResult result (λ x. (lent x ≡ bytes.now) × (opened bytes.now ≡ Ok tt)) (λ f. opened bytes.now ≡ Err f) }
    {
        check(bytes)?;
        Ok(Reader { bytes })
    }

    /// The same for a program's input, which may have 65,536 bytes at most.
    pub fn of_input(bytes: &'a [u8]) -> Result<Reader<'a>, FileFault>
        ensures { MatchResult result (λ x. (lent x ≡ bytes.now) × (admitted bytes.now ≡ Ok tt)) (λ f. admitted bytes.now ≡ Err f) }
    {
        if bytes.len() > MOST_BYTES {
            return Err(FileFault::Oversize);
        }
        Reader::new(bytes)
    }

    // The header that the file begins with.
    fn header(&self) -> Header
        ensures { result.bytes ≡ take 16 (lent self.now) }
    {
        Header {
            bytes: *self.bytes.first_chunk().unwrap(),
        }
    }

    /// How many records the section has.
    pub fn count(&self, section: Section) -> usize
        ensures { result ≡ count_in section (lent self.now) }
    {
        self.header().count(section)
    }

    // Where the record of this number begins.
    fn place(&self, section: Section, number: usize) -> Result<usize, FileFault>
        ensures value { result ≡ located section (lent self.now) number }
        ensures within { IfOk result (λ at. at + width section ≤ length (lent self.now)) }
    {
        self.header().place(section, number)
    }

    /// The deposit of this number, in dollars.
    pub fn deposit(&self, number: usize) -> Result<u32, FileFault>
        ensures { result ≡ deposit_at (lent self.now) number }
    {
        let at = self.place(Section::Deposits, number)?;
        let dollars = self.bytes[at..at + Section::Deposits.width()]
            .as_array()
            .unwrap();
        Ok(u32::from_be_bytes(*dollars))
    }

    /// The event of this number.
    pub fn event(&self, number: usize) -> Result<Event<&'a [u8]>, FileFault>
        ensures { seen result ≡ event_at (lent self.now) number }
    {
        let at = self.place(Section::Events, number)?;
        let record = self.bytes[at..at + Section::Events.width()]
            .as_array()
            .unwrap();
        event_in(record, number)
    }
}

/// Where the record of this number begins.
pub fn place_of(bytes: &[u8], section: Section, number: usize) -> Result<usize, FileFault>
    ensures value { result ≡ located section bytes.now number }
    ensures within { IfOk result (λ at. at + width section ≤ length bytes.now) }
{
    Reader::new(bytes)?.place(section, number)
}
