//! Lists a session file: one line for each record.
ghost use Rattle.std.specs.Prelude.{◌≡◌, ◌++◌, IfOk, string_bytes};
ghost use Rattle.faults.specs.declared.section.Section.TheVariants.{Deposits, Events};
ghost use Rattle.lines.specs.Record.{kept_as};
ghost use Rattle.sessions.specs.Lent.{lent};
ghost use Rattle.listings.specs.Texts.{ended_line};
ghost use Rattle.listings.specs.Listed.{section_name, record_in, record_line, section_lines, refusal_line, listed};

use faults::{FileFault, Section};
use lines::Line;
use sessions::Reader;
use std::alloc::{AllocError, Global};

// What a record of a section is called.
fn section_name(section: Section) -> &'static str
    ensures { result.now ≡ section_name section }
{
    match section {
        Section::Deposits => "deposit",
        Section::Events => "event",
    }
}

// The record of this number as a line says it.
fn record_in(reader: &Reader, section: Section, number: usize) -> Result<Line, FileFault>
    ensures { kept_as result ≡ record_in section (lent reader.now) number }
{
    match section {
        Section::Deposits => Ok(Line::Deposit(reader.deposit(number)?)),
        Section::Events => Line::try_from(reader.event(number)?).map_err(|fault| FileFault::Record(
            number, fault,
        )),
    }
}

// The line of the record of this number, or a remark in its place. The four parameters meet only here.
fn record_line(
    heap: Global,
    reader: &Reader,
    section: Section,
    number: usize,
) -> Result<String, AllocError>
    ensures { IfOk result (λ s. string_bytes s ≡ record_line section (lent reader.now) number) }
{
    // A `match`, since both outcomes go on.
    match record_in(reader, section, number) {
        Ok(line) => format!(in heap; "{line}"),
        Err(fault) => {
            let name = section_name(section);
            let refusal = fault.number();
            format!(in heap; "# {name} {number}: NO {refusal} file")
        }
    }
}

// The lines of a section, each with its newline.
fn section_lines(heap: Global, reader: &Reader, section: Section) -> Result<String, AllocError>
    ensures { IfOk result (λ s. string_bytes s ≡ section_lines section (lent reader.now)) }
{
    let mut text = String::new(heap);
    for number in 1..=reader.count(section) {
        text.push_str(&record_line(heap, reader, section, number)?)?;
        text.push('\n')?;
    }
    Ok(text)
}

// The lines of both sections.
fn all_lines(heap: Global, reader: &Reader) -> Result<String, AllocError>
    ensures { IfOk result (λ s. string_bytes s ≡ section_lines Deposits (lent reader.now) ++ section_lines Events (lent reader.now)) }
{
    let mut text = section_lines(heap, reader, Section::Deposits)?;
    text.push_str(&section_lines(heap, reader, Section::Events)?)?;
    Ok(text)
}

// The text of a file that can't be read: one line with the refusal's number and place.
fn refused(heap: Global, fault: FileFault) -> Result<String, AllocError>
    ensures { IfOk result (λ s. string_bytes s ≡ ended_line (refusal_line fault)) }
{
    format!(in heap; "F {} {}\n", fault.number(), fault.place())
}

/// The text of a session file, or of the refusal of what is none.
pub fn list_session(heap: Global, bytes: &[u8]) -> Result<String, AllocError>
    ensures { IfOk result (λ s. string_bytes s ≡ listed bytes.now) }
{
    // A `match`, since both outcomes go on.
    match Reader::of_input(bytes) {
        Ok(reader) => all_lines(heap, &reader),
        Err(fault) => refused(heap, fault),
    }
}
