//! Writes a session file into memory that is lent.
ghost use Rattle.std.specs.Prelude.{◌≡◌, ◌+◌, ◌≤◌, length, false, Ok, Err, OnOk, MatchResult};
ghost use Rattle.faults.specs.declared.section.Section.TheVariants.{Deposits, Events};
ghost use Rattle.records.specs.Event.{value_of, encoded, row_fits};
ghost use Rattle.sessions.specs.Layout.{header_of};
ghost use Rattle.sessions.specs.Reading.{located};
ghost use Rattle.session_writer.specs.Writing.{room_for, Room, header_put, deposit_put, event_put, Wrote};
ghost use Rattle.session_writer.specs.RoundTrip.{HeaderIn, DepositIn, EventIn, Kept};

use faults::{FileFault, RecordFault, Section};
use records::{Event, encode};
use sessions::{LETTERS, place_of};

// The header of a file with so many deposits, at 16, and events, right behind them.
fn header(deposits: u16, events: u16) -> [u8; 16]
    ensures { result ≡ header_of deposits events }
{
    let mut header = [0; 16];
    header[..4].copy_from_slice(&LETTERS);
    header[4..6].copy_from_slice(&deposits.to_be_bytes());
    header[6..8].copy_from_slice(&events.to_be_bytes());
    header[8..12].copy_from_slice(&16_u32.to_be_bytes());
    header[12..].copy_from_slice(&(16 + 4 * u32::from(deposits)).to_be_bytes());
    header
}

/// The header of a file with so many records, if a memory of this size has room for the file.
pub(crate) fn header_within(
    size: usize,
    deposits: usize,
    events: usize,
) -> Result<[u8; 16], FileFault>
    ensures value { MatchResult result (λ bs. (room_for size deposits events ≡ Ok tt) × (bs ≡ header_of deposits events)) (λ f. room_for size deposits events ≡ Err f) }
    ensures room { OnOk result (Room size deposits events) }
{
    let deposit_count = u16::try_from(deposits).map_err(|_| FileFault::TooMany)?;
    let event_count = u16::try_from(events).map_err(|_| FileFault::TooMany)?;
    if size < 16 + 4 * deposits + 16 * events {
        return Err(FileFault::NoRoom);
    }
    Ok(header(deposit_count, event_count))
}

/// Writes the header of a session with so many deposits and events.
#[tactic(auto, using(crate::proofs::Layouts::header_back))]
pub fn put_header(memory: &mut [u8], deposits: usize, events: usize) -> Result<(), FileFault>
    ensures wrote { Wrote result memory.old memory.new (header_put memory.old deposits events) }
    ensures reads { OnOk result (HeaderIn memory.old memory.new deposits events) }
{
    let header = header_within(memory.len(), deposits, events)?;
    memory[..16].copy_from_slice(&header);
    Ok(())
}

// Writes the deposit of this number at its place. Not one function with `write_event`: a deposit is never refused.
fn write_deposit(memory: &mut [u8], number: usize, at: usize, dollars: u32)
    requires place { Ok at ≡ located Deposits memory.old number }
    requires room { at + 4 ≤ length memory.old }
    ensures wrote { deposit_put memory.old number dollars ≡ Ok memory.new }
    ensures reads { DepositIn memory.old memory.new number dollars }
{
    memory[at..at + 4].copy_from_slice(&dollars.to_be_bytes());
}

/// Writes the deposit of this number, its own four bytes only.
pub fn put_deposit(memory: &mut [u8], number: usize, dollars: u32) -> Result<(), FileFault>
    ensures wrote { Wrote result memory.old memory.new (deposit_put memory.old number dollars) }
    ensures reads { OnOk result (DepositIn memory.old memory.new number dollars) }
{
    let at = place_of(memory, Section::Deposits, number)?;
    write_deposit(memory, number, at, dollars);
    Ok(())
}

/// The bytes of the event of this number, unless it can't be kept.
pub(crate) fn event_bytes(event: Event<&[u8]>, number: usize) -> Result<[u8; 16], FileFault>
    ensures { let e = value_of event.entry in MatchResult result (λ bs. (bs ≡ encoded e) × Kept e) (λ f. (row_fits e ≡ false) × (f ≡ FileFault.Record number RecordFault.RowLength)) }
{
    encode(event).map_err(|fault| FileFault::Record(number, fault))
}

// Writes the event of this number at its place, unless it can't be kept.
fn write_event(
    memory: &mut [u8],
    number: usize,
    at: usize,
    event: Event<&[u8]>,
) -> Result<(), FileFault>
    requires place { Ok at ≡ located Events memory.old number }
    requires room { at + 16 ≤ length memory.old }
    ensures wrote { Wrote result memory.old memory.new (event_put memory.old number (value_of event.entry)) }
    ensures reads { OnOk result (EventIn memory.old memory.new number (value_of event.entry)) }
{
    let record = event_bytes(event, number)?;
    memory[at..at + 16].copy_from_slice(&record);
    Ok(())
}

/// Writes the event of this number, its own 16 bytes only.
pub fn put_event(memory: &mut [u8], number: usize, event: Event<&[u8]>) -> Result<(), FileFault>
    ensures wrote { Wrote result memory.old memory.new (event_put memory.old number (value_of event.entry)) }
    ensures reads { OnOk result (EventIn memory.old memory.new number (value_of event.entry)) }
{
    let at = place_of(memory, Section::Events, number)?;
    write_event(memory, number, at, event)
}
