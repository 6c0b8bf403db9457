//! Makes the session file that a text tells.
ghost use Rattle.std.specs.Prelude.{◌≡◌, true, map, IfOk};
ghost use Rattle.std.specs.List.{AllByRecursion};
ghost use Rattle.records.specs.Event.{value_of, row_fits};
ghost use Rattle.lines.specs.Record.{own_value};
ghost use Rattle.session_texts.specs.Records.{file_of};
ghost use Rattle.session_texts.specs.Drafts.{MadeFrom};
ghost use Rattle.session_texts.specs.Again.{MadeAgain};

use crate::draft::Draft;
use crate::fault::MakeFault;
use crate::hear::hear_text;
use lines::lent;
use records::Event;
use session_writer::put_session;
use std::alloc::{AllocError, Global};

// These events, their rows lent.
fn lent_rows(heap: Global, events: &[Event<[u8; 14]>]) -> Result<Vec<Event<&[u8]>>, AllocError>
    ensures value { IfOk result (λ v. map value_of v.items ≡ map own_value events.now) }
    ensures rows { IfOk result (λ v. AllByRecursion (λ e. row_fits (value_of e) ≡ true) v.items) }
{
    // A loop: what `lent` promises doesn't say where the row lies, so a proof can't name what `collect` gathers.
    let mut all = Vec::new(heap);
    for event in events {
        all.push(lent(event))?;
    }
    Ok(all)
}

impl Draft {
    // The file of what was told.
    fn file(&self, heap: Global) -> Result<Vec<u8>, AllocError>
        ensures { IfOk result (λ v. v.items ≡ file_of self.now) }
    {
        let events = lent_rows(heap, &self.events)?;
        let mut file = vec![in heap; 0; self.size()]?;
        put_session(&mut file, &self.deposits, &events).unwrap();
        Ok(file)
    }
}

// The session file that a text tells, or the first line at fault. It is apart from what follows for a listing, which
// the check then finds with no answer file.
fn make_told(heap: Global, text: &[u8]) -> Result<Vec<u8>, MakeFault>
    ensures { MadeFrom result text.now }
{
    Ok(hear_text(heap, text)?.file(heap)?)
}

/// The session file that a text tells, or the first line at fault. The listing of a file makes that file again.
#[tactic(auto, using(crate::proofs::Again::made_again))]
pub fn make_session(heap: Global, text: &[u8]) -> Result<Vec<u8>, MakeFault>
    ensures made { MadeFrom result text.now }
    ensures again { MadeAgain result text.now }
{
    make_told(heap, text)
}
