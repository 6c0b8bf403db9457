//! The 16 bytes of an event, read and written.
ghost use Rattle.std.specs.Prelude.{◌≡◌, ◌∷◌, Ok, replicate};
ghost use Rattle.records.specs.Bytes.{all_zero};
ghost use Rattle.records.specs.Kind.{byte_of};
ghost use Rattle.records.specs.Event.{seen, decoded, value_of, Encoded, opening, value_of_new_step, value_of_raise};

use crate::event::Event;
use crate::kind::Kind;
use faults::RecordFault;
use offers::{NewStep, Raise};

// Whether every byte is zero.
fn all_zero(bytes: &[u8]) -> bool
    ensures { result ≡ all_zero bytes.now }
{
    bytes.iter().all(|byte| *byte == 0)
}

/// The event that these bytes keep.
pub fn decode(record: &[u8; 16]) -> Result<Event<&[u8]>, RecordFault>
    ensures { seen result ≡ decoded «record».now }
{
    let discount = u16::from_be_bytes([record[6], record[7]]);
    // That there are eight bytes is proved: `unwrap` tests nothing.
    let stamp = u64::from_be_bytes(*record.last_chunk().unwrap());
    match Kind::try_from(record[0])? {
        Kind::Open if record[1] == 0 => Ok(Event::Open(&record[2..])),
        Kind::NewStep if all_zero(&record[4..6]) => Ok(Event::NewStep(NewStep {
            seat: record[1],
            market: record[2],
            shares: record[3],
            discount,
            stamp,
        })),
        Kind::Raise if record[3] == 0 => Ok(Event::Raise(Raise {
            seat: record[1],
            step: u16::from_be_bytes([record[4], record[5]]),
            shares: record[2],
            discount,
            stamp,
        })),
        Kind::Close if all_zero(&record[1..]) => Ok(Event::Close),
        Kind::Changeover if all_zero(&record[1..]) => Ok(Event::Changeover),
        _ => Err(RecordFault::NotZero),
    }
}

// The bytes of an opening with this row.
fn encode_opening(row: &[u8]) -> Result<[u8; 16], RecordFault>
    ensures { Encoded result (opening row.now) }
{
    if row.len() != 14 {
        return Err(RecordFault::RowLength);
    }
    let mut record = [0; 16];
    record[0] = Kind::Open as u8;
    record[2..].copy_from_slice(row);
    Ok(record)
}

// The bytes of a new step.
fn encode_new_step(step: NewStep) -> [u8; 16]
    ensures { Encoded (Ok result) (value_of_new_step step) }
{
    let mut record = [0; 16];
    record[..4].copy_from_slice(&[Kind::NewStep as u8, step.seat, step.market, step.shares]);
    record[6..8].copy_from_slice(&step.discount.to_be_bytes());
    record[8..].copy_from_slice(&step.stamp.to_be_bytes());
    record
}

// The bytes of a raise.
fn encode_raise(raise: Raise) -> [u8; 16]
    ensures { Encoded (Ok result) (value_of_raise raise) }
{
    let mut record = [0; 16];
    record[..3].copy_from_slice(&[Kind::Raise as u8, raise.seat, raise.shares]);
    record[4..6].copy_from_slice(&raise.step.to_be_bytes());
    record[6..8].copy_from_slice(&raise.discount.to_be_bytes());
    record[8..].copy_from_slice(&raise.stamp.to_be_bytes());
    record
}

// The bytes of an event that has no fields.
fn encode_bare(kind: Kind) -> [u8; 16]
    ensures { result ≡ byte_of kind ∷ replicate 15 0 }
{
    let mut record = [0; 16];
    record[0] = kind as u8;
    record
}

/// The 16 bytes that keep this event, unless it is an opening whose row isn't 14 bytes.
pub fn encode(event: Event<&[u8]>) -> Result<[u8; 16], RecordFault>
    ensures { Encoded result (value_of event.entry) }
{
    match event {
        Event::Open(row) => encode_opening(row),
        Event::NewStep(step) => Ok(encode_new_step(step)),
        Event::Raise(raise) => Ok(encode_raise(raise)),
        Event::Close => Ok(encode_bare(Kind::Close)),
        Event::Changeover => Ok(encode_bare(Kind::Changeover)),
    }
}
