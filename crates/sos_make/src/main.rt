//! sos-make: the text of a session on standard input, its session file on standard output.
#![tactic(auto)]

use programs::run;
use session_texts::make_session;
use std::alloc::Global;
use std::io::{Read, Write};
use std::process::ExitCode;

// Nothing is written unless every line was taken.
fn make(
    heap: Global,
    mut input: impl Read + Drop,
    mut output: impl Write + Drop,
) -> anyhow::Result<()> {
    let mut text = Vec::new(heap);
    input.read_to_end(&mut text)?;
    output.write_all(&make_session(heap, &text)?)?;
    Ok(())
}

fn main(rt: HostRuntime) -> ExitCode {
    run(
        &rt,
        "sos-make",
        || make(rt.alloc(), rt.stdin(), rt.stdout()),
    )
}
