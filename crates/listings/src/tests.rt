//! Listings of literal files.
use crate::list::list_session;
use std::process::Abort;
use std::test::Fail;

// One deposit, then a closing, an unknown kind and a changeover with a byte that isn't zero: 68 bytes.
const FILE: [u8; 68] = [
    83, 79, 83, 65, 0, 1, 0, 3, 0, 0, 0, 64, 0, 0, 0, 16, 4, 0, 0, 0, 0, 0, 0, 0, 0, 0, 0, 0, 0, 0,
    0, 0, 6, 0, 0, 0, 0, 0, 0, 0, 0, 0, 0, 0, 0, 0, 0, 0, 5, 0, 0, 0, 0, 0, 0, 0, 0, 0, 0, 0, 0, 0,
    0, 1, 0, 0, 1, 244,
];

fn lists(rt: &(impl Abort + AllocGlobal), bytes: &[u8], text: &str) -> Result<(), Fail> {
    assert_eq!(rt; list_session(rt.alloc(), bytes)?.as_str(), text);
    Ok(())
}

#[test]
fn an_event_that_cannot_be_read_becomes_a_remark(rt: HostRuntime) -> Result<(), Fail> {
    lists(
        &rt,
        &FILE,
        "deposit 500\nclose\n# event 2: NO 33 file\n# event 3: NO 34 file\n",
    )
}

#[test]
fn a_file_that_cannot_be_read_is_one_line(rt: HostRuntime) -> Result<(), Fail> {
    lists(&rt, &[], "F 28 0\n")?;
    lists(&rt, &FILE[0..15], "F 28 15\n")?;
    lists(&rt, &FILE[1..40], "F 29 0\n")?;
    lists(&rt, &FILE[0..67], "F 30 8\n")?;
    let mut other = FILE;
    other[15] = 15;
    lists(&rt, &other, "F 30 12\n")?;
    other[15] = 17;
    lists(&rt, &other, "F 31 12\n")
}

#[test]
fn the_longest_file_has_65536_bytes(rt: HostRuntime) -> Result<(), Fail> {
    let longest = vec![in rt.alloc(); 0u8; 65_536]?;
    lists(&rt, &longest, "F 29 0\n")?;
    let longer = vec![in rt.alloc(); 0u8; 65_537]?;
    lists(&rt, &longer, "F 38 0\n")
}
