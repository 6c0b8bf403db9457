//! Writes a whole session file in the standard layout.
ghost use Rattle.std.specs.Prelude.{◌≡◌, ◌+◌, ◌*◌, ◌≤◌, ℕ, List, map, length, Ok, Err, OnOk, MatchResult, All};
ghost use Rattle.std.specs.List.{flat_map};
ghost use Rattle.records.specs.Bytes.{bytes_of};
ghost use Rattle.records.specs.Event.{value_of, encoded};
ghost use Rattle.sessions.specs.Layout.{header_of};
ghost use Rattle.session_writer.specs.Writing.{written, Room, rows_fit, session_fits, session_put, Wrote};
ghost use Rattle.session_writer.specs.RoundTrip.{Kept, AllKept, SessionIn};

use crate::writer::{event_bytes, header_within};
use faults::FileFault;
use records::{Event, encode};

// A record of a section, kept in N bytes: which can be kept, and as what.
trait Record<const N: usize>: Copy {
    ghost fits: { Self → Type 0 };

    ghost bytes: { Self → List ℕ };

    fn to_bytes(self) -> [u8; N]
        requires { fits self }
        ensures { result ≡ bytes self };
}

impl Record<4> for u32 {
    ghost fits = { λ _. Unit {0} };

    ghost bytes = { bytes_of 4 };

    fn to_bytes(self) -> [u8; 4] {
        self.to_be_bytes()
    }
}

impl Record<16> for Event<&[u8]> {
    ghost fits = { λ e. Kept (value_of e) };

    ghost bytes = { λ e. encoded (value_of e) };

    fn to_bytes(self) -> [u8; 16] {
        encode(self).unwrap()
    }
}

// Writes the records one behind the other, from this place on.
fn write_records<R: Record<N>, const N: usize>(memory: &mut [u8], start: usize, records: &[R])
    requires room { start + N * length records.now ≤ length memory.old }
    requires kept { All R.fits records.now }
    ensures { memory.new ≡ written memory.old start (flat_map R.bytes records.now) }
{
    // By index: what a loop writes through `chunks_exact_mut` is not known behind it.
    for (i, record) in records.iter().enumerate() {
        let at = start + N * i;
        memory[at..at + N].copy_from_slice(&record.to_bytes());
    }
}

// Every event can be kept, or the first that can't is refused.
fn check_rows(events: &[Event<&[u8]>]) -> Result<(), FileFault>
    ensures value { result ≡ rows_fit 1 (map value_of events.now) }
    ensures kept { OnOk result (AllKept (map value_of events.now)) }
{
    // An index: the number of the event is what is told.
    for (i, event) in events.iter().enumerate() {
        event_bytes(*event, i + 1)?;
    }
    Ok(())
}

// The header of a session of so many deposits and these events, if it can be written into a memory of this size.
fn check_session(
    size: usize,
    deposits: usize,
    events: &[Event<&[u8]>],
) -> Result<[u8; 16], FileFault>
    ensures value { let es = map value_of events.now in MatchResult result (λ bs. (session_fits size deposits es ≡ Ok tt) × (bs ≡ header_of deposits (length es))) (λ f. session_fits size deposits es ≡ Err f) }
    ensures room { OnOk result (Room size deposits (length events.now)) }
    ensures kept { OnOk result (AllKept (map value_of events.now)) }
{
    let header = header_within(size, deposits, events.len())?;
    check_rows(events)?;
    Ok(header)
}

// Writes a session that fits: its header, the deposits and the events.
fn write_session(memory: &mut [u8], header: &[u8; 16], deposits: &[u32], events: &[Event<&[u8]>])
    requires fits { session_fits (length memory.old) (length deposits.now) (map value_of events.now) ≡ Ok tt }
    requires room { Room (length memory.old) (length deposits.now) (length events.now) }
    requires header { header.now ≡ header_of (length deposits.now) (length (map value_of events.now)) }
    requires kept { AllKept (map value_of events.now) }
    ensures wrote { session_put memory.old deposits.now (map value_of events.now) ≡ Ok memory.new }
    ensures reads { SessionIn memory.new deposits.now (map value_of events.now) }
{
    memory[..16].copy_from_slice(header);
    write_records(memory, 16, deposits);
    write_records(memory, 16 + 4 * deposits.len(), events);
}

/// Writes a whole session: the header, these deposits and these events. A refusal leaves the memory as it was.
pub fn put_session(
    memory: &mut [u8],
    deposits: &[u32],
    events: &[Event<&[u8]>],
) -> Result<(), FileFault>
    ensures wrote { Wrote result memory.old memory.new (session_put memory.old deposits.now (map value_of events.now)) }
    ensures reads { OnOk result (SessionIn memory.new deposits.now (map value_of events.now)) }
{
    let header = check_session(memory.len(), deposits.len(), events)?;
    write_session(memory, &header, deposits, events);
    Ok(())
}
