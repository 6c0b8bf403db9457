//! What the writer leaves, against literal bytes, and what it leaves alone where it refuses.
use crate::whole::put_session;
use crate::writer::{put_deposit, put_event, put_header};
use faults::{FileFault, RecordFault};
use records::Event;
use std::test::Fail;

const ROW: [u8; 14] = [0, 100, 0, 0, 0, 0, 0, 0, 0, 0, 0, 0, 1, 2];

#[test]
fn a_header_is_16_bytes(rt: HostRuntime) -> Result<(), Fail> {
    let mut memory = [7u8; 60];
    put_header(&mut memory, 3, 2)?;
    assert!(rt; memory[0..16] == [83, 79, 83, 65, 0, 3, 0, 2, 0, 0, 0, 16, 0, 0, 0, 28]);
    assert!(rt; memory[16..60] == [7; 44]);
    Ok(())
}

#[test]
fn a_header_asks_for_room_and_counts(rt: HostRuntime) {
    let mut memory = [7u8; 59];
    assert_eq!(rt; put_header(&mut memory, 3, 2), Err(FileFault::NoRoom));
    assert_eq!(rt; put_header(&mut memory, 65_536, 0), Err(FileFault::TooMany));
    assert_eq!(rt; put_header(&mut memory, 0, 65_536), Err(FileFault::TooMany));
    assert_eq!(rt; put_header(&mut memory, 65_535, 0), Err(FileFault::NoRoom));
    assert!(rt; memory == [7; 59]);
}

#[test]
fn a_record_is_put_by_number(rt: HostRuntime) -> Result<(), Fail> {
    let mut memory = [0u8; 56];
    put_header(&mut memory, 2, 2)?;
    put_deposit(&mut memory, 2, 0x0102_0304)?;
    put_event(&mut memory, 1, Event::Open(&ROW))?;
    assert!(rt; memory[16..24] == [0, 0, 0, 0, 1, 2, 3, 4]);
    assert!(rt; memory[24..40] == [1, 0, 0, 100, 0, 0, 0, 0, 0, 0, 0, 0, 0, 0, 1, 2]);
    assert!(rt; memory[40..56] == [0; 16]);
    Ok(())
}

#[test]
fn a_refused_record_leaves_the_memory(rt: HostRuntime) -> Result<(), Fail> {
    let mut memory = [0u8; 56];
    assert_eq!(rt; put_deposit(&mut memory, 1, 5), Err(FileFault::Letters));
    put_header(&mut memory, 2, 2)?;
    let before = memory;
    assert_eq!(rt; put_deposit(&mut memory, 0, 5), Err(FileFault::NoRecord(0)));
    assert_eq!(rt; put_deposit(&mut memory, 3, 5), Err(FileFault::NoRecord(3)));
    assert_eq!(rt;
        put_event(&mut memory, 3, Event::Close),
        Err(FileFault::NoRecord(3))
    );
    assert_eq!(rt;
        put_event(&mut memory, 2, Event::Open(&ROW[0..13])),
        Err(FileFault::Record(2, RecordFault::RowLength))
    );
    assert!(rt; memory == before);
    Ok(())
}

#[test]
fn a_whole_session_is_written_or_nothing(rt: HostRuntime) -> Result<(), Fail> {
    let mut events = Vec::new(rt.alloc());
    events.push(Event::Close)?;
    events.push(Event::Open(&ROW[..]))?;
    let mut memory = [7u8; 53];
    put_session(&mut memory, &[9], &events)?;
    assert!(rt;
        memory[0..20]
            == [
                83, 79, 83, 65, 0, 1, 0, 2, 0, 0, 0, 16, 0, 0, 0, 20, 0, 0, 0, 9,
            ]
    );
    assert!(rt; memory[20] == 4 && memory[36] == 1 && memory[39] == 100 && memory[52] == 7);
    let before = memory;
    assert_eq!(rt;
        put_session(&mut memory, &[9, 9], &events),
        Err(FileFault::NoRoom)
    );
    events.push(Event::Open(&ROW[0..2]))?;
    let mut large = [7u8; 80];
    assert_eq!(rt;
        put_session(&mut large, &[9], &events),
        Err(FileFault::Record(3, RecordFault::RowLength))
    );
    assert!(rt; memory == before && large == [7; 80]);
    Ok(())
}
