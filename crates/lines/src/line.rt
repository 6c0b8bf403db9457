//! One line as a value.
ghost use Rattle.std.specs.Prelude.{◌≡◌, true, IfSome, Some};
ghost use Rattle.std.specs.Option.{option_map};
ghost use Rattle.records.specs.Event.{value_of, row_fits};
ghost use Rattle.lines.specs.Record.{own_value, record_of, event_in, line_of, kept_as};
ghost use Rattle.lines.specs.Shown.{shown_record};

use crate::row::steps_of;
use faults::RecordFault;
use offers::{NewStep, Raise};
use records::Event;
use std::fmt;

/// One line of a session's text.
#[derive(Clone, Copy, PartialEq, Eq, Debug)]
pub enum Line {
    /// A deposit, in dollars.
    Deposit(u32),
    /// An event, whose opening has its row itself, the higher byte of each increment first, as a file keeps them.
    Event(Event<[u8; 14]>),
}

/// The same event, its row lent.
pub fn lent(event: &Event<[u8; 14]>) -> Event<&[u8]>
    ensures value { value_of result ≡ own_value event.now }
    ensures row { row_fits (value_of result) ≡ true }
{
    match event {
        Event::Open(row) => Event::Open(row),
        Event::NewStep(step) => Event::NewStep(*step),
        Event::Raise(raise) => Event::Raise(*raise),
        Event::Close => Event::Close,
        Event::Changeover => Event::Changeover,
    }
}

impl Line {
    /// The event that the line stands for: every line but a deposit does.
    pub fn event(&self) -> Option<Event<&[u8]>>
        ensures value { option_map value_of result ≡ event_in (record_of self.now) }
        ensures row { IfSome result (λ e. row_fits (value_of e) ≡ true) }
    {
        match self {
            Line::Deposit(_) => None,
            Line::Event(event) => Some(lent(event)),
        }
    }
}

/// The line that says an event, unless it is an opening whose row isn't 14 bytes.
impl TryFrom<Event<&[u8]>> for Line {
    type Error = RecordFault;

    ghost try_from_gives = { λ event r. kept_as r ≡ line_of (value_of event) };

    fn try_from(event: Event<&[u8]>) -> Result<Line, RecordFault> {
        Ok(match event {
            Event::Open(row) => {
                let row = row.try_into().map_err(|_| RecordFault::RowLength)?;
                Line::Event(Event::Open(row))
            }
            Event::NewStep(step) => Line::Event(Event::NewStep(step)),
            Event::Raise(raise) => Line::Event(Event::Raise(raise)),
            Event::Close => Line::Event(Event::Close),
            Event::Changeover => Line::Event(Event::Changeover),
        })
    }
}

impl fmt::Display for Line {
    ghost output = { λ line. Some (shown_record (record_of line)) };

    fn fmt<W: fmt::Write>(&self, f: &mut fmt::Formatter<W>) -> fmt::Result {
        match self {
            Line::Deposit(dollars) => write!(f, "deposit {dollars}"),
            Line::Event(Event::Open(row)) => {
                write!(f, "open")?;
                for step in steps_of(row) {
                    write!(f, " {step}")?;
                }
                Ok(())
            }
            Line::Event(
                Event::NewStep(
                    NewStep {
                        seat,
                        market,
                        shares,
                        discount,
                        stamp,
                    },
                ),
            ) => write!(f, "enter {seat} {market} {shares} {discount} {stamp}"),
            Line::Event(
                Event::Raise(
                    Raise {
                        seat,
                        step,
                        shares,
                        discount,
                        stamp,
                    },
                ),
            ) => write!(f, "raise {seat} {step} {shares} {discount} {stamp}"),
            Line::Event(Event::Close) => write!(f, "close"),
            Line::Event(Event::Changeover) => write!(f, "changeover"),
        }
    }
}
