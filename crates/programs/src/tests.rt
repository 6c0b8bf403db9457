//! Both ends of a program.
use crate::run;
use anyhow::anyhow;
use std::test::Fail;

#[test]
fn a_program_that_ends_well_succeeds(rt: HostRuntime) -> Result<(), Fail> {
    let code = run(&rt, "program", || Ok(()));
    assert_eq!(rt;
        format!(in rt.alloc(); "{code:?}")?.as_str(),
        "ExitCode(unix_exit_status(0))"
    );
    Ok(())
}

#[test]
fn a_refusal_fails(rt: HostRuntime) -> Result<(), Fail> {
    let code = run(&rt, "program", || Err(anyhow!("refused")));
    assert_eq!(rt;
        format!(in rt.alloc(); "{code:?}")?.as_str(),
        "ExitCode(unix_exit_status(1))"
    );
    Ok(())
}
