//! Lines shown and parsed back, each field at its edge, and the first fault of a line.
use crate::fault::LineFault;
use crate::line::Line;
use crate::parse::parse_line;
use crate::text::line_text;
use offers::{NewStep, Raise};
use records::Event;
use std::process::Abort;
use std::test::Fail;

// The text is shown of the line, and the line is parsed from the text.
fn both_ways(rt: &(impl Abort + AllocGlobal), line: Line, text: &str) -> Result<(), Fail> {
    assert_eq!(rt; line_text(rt.alloc(), &line)?.as_str(), text);
    assert_eq!(rt; parse_line(text.as_bytes()), Ok(Some(line)));
    Ok(())
}

#[test]
fn every_kind_of_line_is_shown_and_parsed(rt: HostRuntime) -> Result<(), Fail> {
    both_ways(&rt, Line::Deposit(25_000), "deposit 25000")?;
    both_ways(
        &rt,
        Line::Event(Event::Open([0, 1, 1, 0, 0, 0, 255, 255, 0, 5, 0, 6, 0, 7])),
        "open 1 256 0 65535 5 6 7",
    )?;
    let entry = Line::Event(Event::NewStep(NewStep {
        seat: 1,
        market: 2,
        shares: 3,
        discount: 4,
        stamp: 5,
    }));
    both_ways(&rt, entry, "enter 1 2 3 4 5")?;
    let raise = Line::Event(Event::Raise(Raise {
        seat: 1,
        step: 2,
        shares: 3,
        discount: 4,
        stamp: 5,
    }));
    both_ways(&rt, raise, "raise 1 2 3 4 5")?;
    both_ways(&rt, Line::Event(Event::Close), "close")?;
    both_ways(&rt, Line::Event(Event::Changeover), "changeover")
}

#[test]
fn blanks_and_leading_zeros_do_not_matter(rt: HostRuntime) {
    assert_eq!(rt;
        parse_line(b"\tdeposit \t 007 \r"),
        Ok(Some(Line::Deposit(7)))
    );
    assert_eq!(rt; parse_line(b"close\r"), Ok(Some(Line::Event(Event::Close))));
}

#[test]
fn a_blank_line_and_a_remark_say_nothing(rt: HostRuntime) {
    assert_eq!(rt; parse_line(b""), Ok(None));
    assert_eq!(rt; parse_line(b" \t\r"), Ok(None));
    assert_eq!(rt; parse_line(b"  #close"), Ok(None));
}

#[test]
fn the_largest_number_of_each_field_passes(rt: HostRuntime) {
    let entry = Line::Event(Event::NewStep(NewStep {
        seat: 255,
        market: 255,
        shares: 255,
        discount: 65_535,
        stamp: u64::MAX,
    }));
    assert_eq!(rt;
        parse_line(b"enter 255 255 255 65535 18446744073709551615"),
        Ok(Some(entry))
    );
    assert_eq!(rt;
        parse_line(b"deposit 4294967295"),
        Ok(Some(Line::Deposit(u32::MAX)))
    );
}

#[test]
fn a_larger_number_does_not(rt: HostRuntime) {
    assert_eq!(rt;
        parse_line(b"enter 256 1 1 1 1"),
        Err(LineFault::TooLarge(1, 255))
    );
    assert_eq!(rt;
        parse_line(b"enter 1 1 1 65536 1"),
        Err(LineFault::TooLarge(4, 65_535))
    );
    assert_eq!(rt;
        parse_line(b"raise 1 1 1 1 18446744073709551616"),
        Err(LineFault::TooLarge(5, u64::MAX))
    );
    assert_eq!(rt;
        parse_line(b"deposit 4294967296"),
        Err(LineFault::TooLarge(1, 4_294_967_295))
    );
}

#[test]
fn the_first_fault_counts(rt: HostRuntime) {
    assert_eq!(rt; parse_line(b"closed"), Err(LineFault::UnknownWord));
    assert_eq!(rt; parse_line(b"deposit +5"), Err(LineFault::NotANumber(1)));
    assert_eq!(rt; parse_line(b"open 1 2 3 4 5 6"), Err(LineFault::Missing(7)));
    assert_eq!(rt;
        parse_line(b"open 1 2 3 4 5 6 7 8"),
        Err(LineFault::Surplus)
    );
    assert_eq!(rt; parse_line(b"raise 1 x 256"), Err(LineFault::NotANumber(2)));
}

#[test]
fn a_fault_is_told_in_words(rt: HostRuntime) -> Result<(), Fail> {
    let fault = LineFault::TooLarge(4, 65_535);
    assert_eq!(rt;
        format!(in rt.alloc(); "{fault}")?.as_str(),
        "field 4 is larger than 65535"
    );
    Ok(())
}
