//! The records that a text has told so far.
ghost use Rattle.std.specs.Prelude.{◌≡◌, ◌+◌, ◌≤◌, false, [], ◌∷◌, ◌++◌, OnOk};
ghost use Rattle.lines.specs.Record.{record_of};
ghost use Rattle.lines.specs.Parsed.{parsed};
ghost use Rattle.sessions.specs.Layout.{width};
ghost use Rattle.session_texts.specs.Records.{record_size, file_size};
ghost use Rattle.session_texts.specs.Told.{late, heard};

use crate::fault::{MakeFault, TextFault};
use faults::Section;
use lines::{Line, parse_line};
use records::Event;
use sessions::MOST_BYTES;
use std::alloc::{AllocError, Global};
use std::marker::Model;

/// The records told so far, deposits before events; contracts see their list. Their file has 65,536 bytes at most.
#[derive(Drop)]
pub(crate) struct Draft {
    pub(crate) deposits: Vec<u32>,
    pub(crate) events: Vec<Event<[u8; 14]>>,
}

impl Model for Draft {
    ghost use Rattle.std.specs.Prelude.{◌≤◌, List, length};
    ghost use Rattle.sessions.specs.Layout.{size_of};
    ghost use Rattle.lines.specs.Record.{Record};
    ghost use Rattle.session_texts.specs.Drafts.{records_of};

    ghost Value = { List Record };

    ghost view = { λ d. records_of d.deposits.items d.events.items };

    ghost invariant = { λ d. size_of (length d.deposits.items) (length d.events.items) ≤ 65536 };
}

// The section that keeps the record of a line.
fn section_of(line: &Line) -> Section
    ensures { width result ≡ record_size (record_of line.now) }
{
    match line {
        Line::Deposit(_) => Section::Deposits,
        Line::Event(_) => Section::Events,
    }
}

impl Draft {
    ghost use Rattle.session_texts.specs.Drafts.{Taken, Heard};

    /// Nothing told yet: a file of a header alone.
    pub(crate) fn new(heap: Global) -> Draft
        ensures { result ≡ [] }
    {
        Draft {
            deposits: Vec::new(heap),
            events: Vec::new(heap),
        }
    }

    /// How many bytes the file of these records has.
    pub(crate) fn size(&self) -> usize
        ensures value { result ≡ file_size self.now }
        ensures small { result ≤ 65536 }
    {
        16 + Section::Deposits.width() * self.deposits.len()
            + Section::Events.width() * self.events.len()
    }

    // Whether a record comes too late: a deposit behind an event.
    fn is_late(&self, line: &Line) -> bool
        ensures { result ≡ late self.now (record_of line.now) }
    {
        match line {
            Line::Deposit(_) => !self.events.is_empty(),
            Line::Event(_) => false,
        }
    }

    // The record that a line says, if it says one, unless there is no place for it here.
    fn record(&self, text: &[u8]) -> Result<Option<Line>, TextFault>
        ensures { Taken result self.now (parsed text.now) }
    {
        let Some(line) = parse_line(text)? else {
            return Ok(None);
        };
        if self.is_late(&line) {
            return Err(TextFault::LateDeposit);
        }
        if self.size() + section_of(&line).width() > MOST_BYTES {
            return Err(TextFault::Oversize);
        }
        Ok(Some(line))
    }

    // One record more, which has a place here.
    fn push(&mut self, line: Line) -> Result<(), AllocError>
        requires in_time { late self.old (record_of line) ≡ false }
        requires room { file_size self.old + record_size (record_of line) ≤ 65536 }
        ensures { OnOk result (self.new ≡ self.old ++ record_of line ∷ []) }
    {
        match line {
            Line::Deposit(dollars) => self.deposits.push(dollars)?,
            Line::Event(event) => self.events.push(event)?,
        }
        Ok(())
    }

    /// Hears the line of this number.
    pub(crate) fn hear(&mut self, number: usize, text: &[u8]) -> Result<(), MakeFault>
        ensures { Heard result number (heard self.old (parsed text.now)) self.new }
    {
        let record = self
            .record(text)
            .map_err(|fault| MakeFault::Line(number, fault))?;
        if let Some(line) = record {
            self.push(line)?;
        }
        Ok(())
    }
}
