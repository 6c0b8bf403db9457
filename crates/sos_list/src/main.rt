//! sos-list: a session file on standard input, its text on standard output.
#![tactic(auto)]

use listings::list_session;
use programs::run;
use sessions::MOST_BYTES;
use std::io::Read;
use std::process::ExitCode;

// One byte more than a session file may have tells that the input is too long, and no more is held.
fn list(rt: &(impl AllocGlobal + Print), input: impl Read + Drop) -> anyhow::Result<()> {
    let mut bytes = Vec::new(rt.alloc());
    input.take(MOST_BYTES as u64 + 1).read_to_end(&mut bytes)?;
    rt.print(list_session(rt.alloc(), &bytes)?.as_str())?;
    Ok(())
}

fn main(rt: HostRuntime) -> ExitCode {
    run(&rt, "sos-list", || list(&rt, rt.stdin()))
}
