//! Texts that are refused, each by its first line at fault, and texts at their edges.
use crate::make::make_session;
use std::test::Fail;

// What a clerk is told of a text that is refused.
fn refusal(rt: &HostRuntime, text: &[u8]) -> Result<String, Fail> {
    match make_session(rt.alloc(), text) {
        Ok(_) => Err(Fail::new("a file was made")),
        Err(fault) => Ok(format!(in rt.alloc(); "{fault}")?),
    }
}

#[test]
fn lines_are_counted_with_those_passed_over(rt: HostRuntime) -> Result<(), Fail> {
    let text = b"# a remark\n\nclose\ndeposit 1\n";
    assert_eq!(rt;
        refusal(&rt, text)?.as_str(),
        "line 4: a deposit stands after an event"
    );
    Ok(())
}

#[test]
fn the_first_line_at_fault_is_named(rt: HostRuntime) -> Result<(), Fail> {
    let text = b"deposit 1\nopen 1 2 3 4 5 6\nbad\n";
    assert_eq!(rt; refusal(&rt, text)?.as_str(), "line 2: field 7 is missing");
    Ok(())
}

#[test]
fn a_last_line_needs_no_newline(rt: HostRuntime) -> Result<(), Fail> {
    let file = make_session(rt.alloc(), b"deposit 258")?;
    assert_eq!(rt;
        file.as_slice(),
        [
            83, 79, 83, 65, 0, 1, 0, 0, 0, 0, 0, 16, 0, 0, 0, 20, 0, 0, 1, 2,
        ]
        .as_slice()
    );
    Ok(())
}

#[test]
fn a_text_without_records_makes_a_header(rt: HostRuntime) -> Result<(), Fail> {
    let file = make_session(rt.alloc(), b"")?;
    assert_eq!(rt;
        file.as_slice(),
        [83, 79, 83, 65, 0, 0, 0, 0, 0, 0, 0, 16, 0, 0, 0, 16].as_slice()
    );
    Ok(())
}

#[test]
fn a_file_has_65536_bytes_at_most(rt: HostRuntime) -> Result<(), Fail> {
    let mut text = Vec::new(rt.alloc());
    for _ in 0..4_095 {
        text.extend_from_slice(b"close\n")?;
    }
    assert_eq!(rt; make_session(rt.alloc(), &text)?.len(), 65_536);
    text.extend_from_slice(b"close\n")?;
    assert_eq!(rt;
        refusal(&rt, &text)?.as_str(),
        "line 4096: the file would have over 65536 bytes"
    );
    Ok(())
}
