//! What one line of a session's text says.
ghost use Rattle.std.specs.Prelude.{◌≡◌, []};
ghost use Rattle.lines.specs.Record.{record_of, kept_as, seen};
ghost use Rattle.lines.specs.Fields.{fields};
ghost use Rattle.lines.specs.Parsed.{parsed, said, silent, filled, deposit_limits, open_limits, enter_limits, raise_limits, deposit_of, open_of, enter_of, raise_of};

use crate::fault::LineFault;
use crate::fields::read_fields;
use crate::line::Line;
use crate::row::row_of;
use crate::words::split_word;
use offers::{NewStep, Raise};
use records::Event;

// The most that a field of so many bits holds.
const MOST_8: u64 = u8::MAX as u64;

const MOST_16: u64 = u16::MAX as u64;

const MOST_32: u64 = u32::MAX as u64;

const MOST_64: u64 = u64::MAX;

// One function for each kind of line: they share `read_fields`, and differ in what they make of the numbers.

// DOLLARS
fn deposit(text: &[u8]) -> Result<Line, LineFault>
    ensures { kept_as result ≡ filled deposit_of (fields deposit_limits 1 text.now) }
{
    let [dollars] = read_fields(text, [MOST_32])?;
    Ok(Line::Deposit(dollars as u32))
}

// SEAT MARKET SHARES DISCOUNT STAMP
fn enter(text: &[u8]) -> Result<Line, LineFault>
    ensures { kept_as result ≡ filled enter_of (fields enter_limits 1 text.now) }
{
    let [seat, market, shares, discount, stamp] = read_fields(
        text,
        [MOST_8, MOST_8, MOST_8, MOST_16, MOST_64],
    )?;
    Ok(Line::Event(Event::NewStep(NewStep {
        seat: seat as u8,
        market: market as u8,
        shares: shares as u8,
        discount: discount as u16,
        stamp,
    })))
}

// seven increments
fn open(text: &[u8]) -> Result<Line, LineFault>
    ensures { kept_as result ≡ filled open_of (fields open_limits 1 text.now) }
{
    let steps = read_fields(text, [MOST_16; 7])?;
    Ok(Line::Event(Event::Open(row_of(steps))))
}

// SEAT STEP SHARES DISCOUNT STAMP
fn raise(text: &[u8]) -> Result<Line, LineFault>
    ensures { kept_as result ≡ filled raise_of (fields raise_limits 1 text.now) }
{
    let [seat, step, shares, discount, stamp] = read_fields(
        text,
        [MOST_8, MOST_16, MOST_8, MOST_16, MOST_64],
    )?;
    Ok(Line::Event(Event::Raise(Raise {
        seat: seat as u8,
        step: step as u16,
        shares: shares as u8,
        discount: discount as u16,
        stamp,
    })))
}

// A line that is one word alone.
fn bare(line: Line, text: &[u8]) -> Result<Line, LineFault>
    ensures { kept_as result ≡ filled (λ _. record_of line) (fields [] 1 text.now) }
{
    let [] = read_fields(text, [])?;
    Ok(line)
}

// What a line says that begins with this word and goes on with this text.
fn said_by(word: &[u8], text: &[u8]) -> Result<Line, LineFault>
    ensures { kept_as result ≡ said word.now text.now }
{
    match word {
        b"deposit" => deposit(text),
        b"open" => open(text),
        b"enter" => enter(text),
        b"raise" => raise(text),
        b"close" => bare(Line::Event(Event::Close), text),
        b"changeover" => bare(Line::Event(Event::Changeover), text),
        _ => Err(LineFault::UnknownWord),
    }
}

// Whether a line that begins with this word says nothing.
fn is_silent(word: &[u8]) -> bool
    ensures { result ≡ silent word.now }
{
    matches!(word, [] | [b'#', ..])
}

/// What a line says. A blank line, or one whose first word begins with '#', says nothing.
pub fn parse_line(line: &[u8]) -> Result<Option<Line>, LineFault>
    ensures { seen result ≡ parsed line.now }
{
    let (word, text) = split_word(line);
    if is_silent(word) {
        return Ok(None);
    }
    Ok(Some(said_by(word, text)?))
}
