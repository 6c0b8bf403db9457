//! Literal files, each refusal at its edge, and damaged files.
use crate::reader::{Reader, place_of};
use faults::{FileFault, RecordFault, Section};
use records::Event;
use std::test::Fail;

// Two deposits at 16, a closing and an unknown event at 24: 56 bytes.
const FILE: [u8; 56] = [
    83, 79, 83, 65, 0, 2, 0, 2, 0, 0, 0, 16, 0, 0, 0, 24, 0, 213, 159, 128, 255, 255, 255, 255, 4,
    0, 0, 0, 0, 0, 0, 0, 0, 0, 0, 0, 0, 0, 0, 0, 9, 0, 0, 0, 0, 0, 0, 0, 0, 0, 0, 0, 0, 0, 0, 0,
];

fn refusal(bytes: &[u8]) -> Option<FileFault> {
    match Reader::new(bytes) {
        Ok(_) => None,
        Err(fault) => Some(fault),
    }
}

// The refusal of a header with these counts and offsets, in a file of so many bytes.
fn header_refusal(counts: [u8; 2], offsets: [u8; 2], length: usize) -> Option<FileFault> {
    let mut bytes = [7u8; 200];
    bytes[0..16].copy_from_slice(&[
        83, 79, 83, 65, 0, counts[0], 0, counts[1], 0, 0, 0, offsets[0], 0, 0, 0, offsets[1],
    ]);
    refusal(&bytes[0..length.min(200)])
}

#[test]
fn records_are_read_by_number(rt: HostRuntime) -> Result<(), Fail> {
    let reader = Reader::new(&FILE)?;
    assert_eq!(rt; reader.count(Section::Deposits), 2);
    assert_eq!(rt; reader.count(Section::Events), 2);
    assert_eq!(rt; reader.deposit(1)?, 14_000_000);
    assert_eq!(rt; reader.deposit(2)?, u32::MAX);
    assert!(rt; matches!(reader.event(1)?, Event::Close));
    match reader.event(2) {
        Ok(_) => Err(Fail::new("kind 9 was read")),
        Err(fault) => {
            assert_eq!(rt; fault, FileFault::Record(2, RecordFault::UnknownKind));
            Ok(())
        },
    }
}

#[test]
fn no_other_number_has_a_record(rt: HostRuntime) -> Result<(), Fail> {
    let reader = Reader::new(&FILE)?;
    assert_eq!(rt; reader.deposit(0).err(), Some(FileFault::NoRecord(0)));
    assert_eq!(rt; reader.deposit(3).err(), Some(FileFault::NoRecord(3)));
    assert_eq!(rt; place_of(&FILE, Section::Events, 2), Ok(40));
    assert_eq!(rt;
        place_of(&FILE, Section::Events, 3),
        Err(FileFault::NoRecord(3))
    );
    Ok(())
}

#[test]
fn a_header_has_16_bytes_and_the_letters(rt: HostRuntime) {
    assert_eq!(rt; refusal(&[]), Some(FileFault::Short(0)));
    assert_eq!(rt;
        header_refusal([0, 0], [16, 16], 15),
        Some(FileFault::Short(15))
    );
    assert_eq!(rt; header_refusal([0, 0], [16, 16], 16), None);
    let mut other = FILE;
    other[3] = b'a';
    assert_eq!(rt; refusal(&other), Some(FileFault::Letters));
    assert_eq!(rt; refusal(&other[0..15]), Some(FileFault::Short(15)));
}

#[test]
fn sections_lie_behind_the_header_and_within_the_file(rt: HostRuntime) {
    let deposits = Some(FileFault::Section(Section::Deposits));
    let events = Some(FileFault::Section(Section::Events));
    assert_eq!(rt; header_refusal([1, 1], [15, 20], 36), deposits);
    assert_eq!(rt; header_refusal([1, 1], [16, 15], 36), events);
    assert_eq!(rt; header_refusal([1, 1], [16, 20], 36), None);
    assert_eq!(rt; header_refusal([1, 1], [16, 20], 35), events);
    assert_eq!(rt; header_refusal([1, 1], [32, 16], 36), None);
    assert_eq!(rt; header_refusal([1, 1], [32, 16], 35), deposits);
    assert_eq!(rt; header_refusal([1, 1], [15, 15], 36), deposits);
    assert_eq!(rt; header_refusal([0, 0], [15, 16], 16), deposits);
    assert_eq!(rt; header_refusal([0, 0], [16, 17], 16), events);
}

#[test]
fn sections_share_no_byte(rt: HostRuntime) {
    assert_eq!(rt; header_refusal([2, 1], [16, 24], 40), None);
    assert_eq!(rt;
        header_refusal([2, 1], [16, 23], 40),
        Some(FileFault::Overlap)
    );
    assert_eq!(rt; header_refusal([2, 1], [32, 16], 40), None);
    assert_eq!(rt;
        header_refusal([2, 1], [31, 16], 40),
        Some(FileFault::Overlap)
    );
    assert_eq!(rt; header_refusal([0, 1], [20, 16], 40), None);
    assert_eq!(rt; header_refusal([2, 0], [16, 20], 40), None);
}

#[test]
fn a_count_of_65535_is_read(rt: HostRuntime) {
    let mut bytes = FILE;
    bytes[6] = 255;
    bytes[7] = 255;
    assert_eq!(rt; refusal(&bytes), Some(FileFault::Section(Section::Events)));
}

#[test]
fn offsets_never_wrap(rt: HostRuntime) {
    let mut bytes = FILE;
    bytes[8..12].copy_from_slice(&[255, 255, 255, 255]);
    assert_eq!(rt;
        refusal(&bytes),
        Some(FileFault::Section(Section::Deposits))
    );
}
