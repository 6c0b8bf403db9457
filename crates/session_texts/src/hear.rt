//! Hears a text line by line.
ghost use Rattle.session_texts.specs.Drafts.{ToldBy};

use crate::draft::Draft;
use crate::fault::MakeFault;
use std::alloc::Global;

/// What a text tells, or the first line at fault.
pub(crate) fn hear_text(heap: Global, text: &[u8]) -> Result<Draft, MakeFault>
    ensures { ToldBy result text.now }
{
    let mut draft = Draft::new(heap);
    for (at, line) in text.split(|byte| *byte == b'\n').enumerate() {
        draft.hear(at + 1, line)?;
    }
    Ok(draft)
}
