//! Literal bytes of every kind, from the tables of the format.
use crate::codec::{decode, encode};
use crate::event::Event;
use faults::RecordFault;
use std::test::Fail;

const OPENING: [u8; 16] = [1, 0, 0, 100, 0, 0, 0, 50, 3, 232, 0, 0, 0, 1, 255, 255];

const NEW_STEP: [u8; 16] = [2, 24, 7, 100, 0, 0, 39, 16, 1, 2, 3, 4, 5, 6, 7, 8];

const RAISE: [u8; 16] = [
    3, 1, 99, 0, 4, 1, 1, 44, 255, 255, 255, 255, 255, 255, 255, 255,
];

const CLOSE: [u8; 16] = [4, 0, 0, 0, 0, 0, 0, 0, 0, 0, 0, 0, 0, 0, 0, 0];

const CHANGEOVER: [u8; 16] = [5, 0, 0, 0, 0, 0, 0, 0, 0, 0, 0, 0, 0, 0, 0, 0];

#[test]
fn an_opening_borrows_its_row(rt: HostRuntime) -> Result<(), Fail> {
    let Event::Open(row) = decode(&OPENING)? else {
        return Err(Fail::new("no opening"));
    };
    assert!(rt; row == &OPENING[2..16]);
    assert!(rt; encode(Event::Open(row))? == OPENING);
    Ok(())
}

#[test]
fn a_new_step_has_its_fields(rt: HostRuntime) -> Result<(), Fail> {
    let event = decode(&NEW_STEP)?;
    let Event::NewStep(step) = event else {
        return Err(Fail::new("no new step"));
    };
    assert!(rt; step.seat == 24 && step.market == 7 && step.shares == 100);
    assert!(rt; step.discount == 10_000 && step.stamp == 0x0102_0304_0506_0708);
    assert!(rt; encode(event)? == NEW_STEP);
    Ok(())
}

#[test]
fn a_raise_has_its_fields(rt: HostRuntime) -> Result<(), Fail> {
    let event = decode(&RAISE)?;
    let Event::Raise(raise) = event else {
        return Err(Fail::new("no raise"));
    };
    assert!(rt; raise.seat == 1 && raise.shares == 99 && raise.step == 1_025);
    assert!(rt; raise.discount == 300 && raise.stamp == u64::MAX);
    assert!(rt; encode(event)? == RAISE);
    Ok(())
}

#[test]
fn a_closing_and_a_changeover_have_no_fields(rt: HostRuntime) -> Result<(), Fail> {
    assert!(rt; matches!(decode(&CLOSE)?, Event::Close));
    assert!(rt; matches!(decode(&CHANGEOVER)?, Event::Changeover));
    assert!(rt; encode(Event::Close)? == CLOSE);
    assert!(rt; encode(Event::Changeover)? == CHANGEOVER);
    Ok(())
}

// The refusal of these bytes with one of them changed.
fn refusal(mut record: [u8; 16], at: usize, byte: u8) -> Option<RecordFault> {
    if at < 16 {
        record[at] = byte;
    }
    match decode(&record) {
        Ok(_) => None,
        Err(fault) => Some(fault),
    }
}

#[test]
fn a_byte_that_must_be_zero_is_zero(rt: HostRuntime) {
    assert_eq!(rt; refusal(OPENING, 1, 1), Some(RecordFault::NotZero));
    assert_eq!(rt; refusal(NEW_STEP, 4, 1), Some(RecordFault::NotZero));
    assert_eq!(rt; refusal(NEW_STEP, 5, 255), Some(RecordFault::NotZero));
    assert_eq!(rt; refusal(RAISE, 3, 1), Some(RecordFault::NotZero));
    for at in 1..16 {
        assert_eq!(rt; refusal(CLOSE, at, 1), Some(RecordFault::NotZero));
        assert_eq!(rt; refusal(CHANGEOVER, at, 128), Some(RecordFault::NotZero));
    }
}

#[test]
fn other_kinds_are_unknown(rt: HostRuntime) {
    assert_eq!(rt; refusal(CLOSE, 0, 0), Some(RecordFault::UnknownKind));
    assert_eq!(rt; refusal(CLOSE, 0, 6), Some(RecordFault::UnknownKind));
    assert_eq!(rt; refusal(RAISE, 0, 255), Some(RecordFault::UnknownKind));
}

#[test]
fn a_row_has_14_bytes(rt: HostRuntime) {
    assert!(rt; encode(Event::Open(&OPENING[0..13])).is_err());
    assert!(rt; encode(Event::Open(&OPENING[0..15])).is_err());
    assert!(rt; encode(Event::Open(&OPENING[0..14])).is_ok());
}
