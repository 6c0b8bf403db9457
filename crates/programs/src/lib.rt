//! What the programs share: how one ends.
#![tactic(auto)]

ghost use Rattle.std.specs.Prelude.{◌≡◌};
ghost use Rattle.std.specs.Process.{exit_status};
ghost use Rattle.programs.specs.Status.{status_of};

#[cfg(test)]
mod tests;

use std::io::Eprint;
use std::process::ExitCode;

/// Runs a program. Its refusal is told once, on standard error, behind its name: a `main` that returned it would have
/// it printed again.
pub fn run<F: FnOnce() -> anyhow::Result<()>>(rt: &impl Eprint, name: &str, program: F) -> ExitCode
    requires { F.IsAlwaysCallable program }
    ensures { (outcome : _) × F.post program outcome × (exit_status result ≡ status_of outcome) }
{
    // A `match`, since both outcomes go on.
    match program() {
        Ok(()) => ExitCode::SUCCESS,
        Err(error) => {
            let _ = eprintln!(rt; "{name}: {error}");
            ExitCode::FAILURE
        }
    }
}
