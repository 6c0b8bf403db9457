//! One line as text.
ghost use Rattle.std.specs.Prelude.{IfOk, string_bytes};
ghost use Rattle.lines.specs.Record.{own_value, record_of, Fits, event as says};
ghost use Rattle.lines.specs.Shown.{Written};

use crate::line::Line;
use records::Event;
use std::alloc::{AllocError, Global};

impl Line {
    // A line of the type: its figures have their widths, which a proof learns as a pattern names them.
    fn known(self)
        ensures { Fits (record_of self) }
    {
        match self {
            Line::Deposit(_dollars) => {}
            Line::Event(event) => known_event(event),
        }
    }
}

// The same of an event.
fn known_event(event: Event<[u8; 14]>)
    ensures { Fits (says (own_value event)) }
{
    match event {
        Event::Open(_row) => {}
        Event::NewStep(_step) => {}
        Event::Raise(_raise) => {}
        Event::Close | Event::Changeover => {}
    }
}

/// The text of a line, without a newline. Parsed, it gives the line again.
#[tactic(auto, using(crate::proofs::Back::written))]
pub fn line_text(heap: Global, line: &Line) -> Result<String, AllocError>
    ensures { IfOk result (λ s. Written (string_bytes s) (record_of line.now)) }
{
    line.known();
    format!(in heap; "{line}")
}
