//! Calls one after the other, and what is proved of every run of them.
ghost use Rattle.std.specs.Prelude.{◌≡◌, ◌≤◌, [], length, IfOk, vec_capacity};
ghost use Rattle.rules.specs.Sales.{run};
ghost use Rattle.rules.specs.Parts.{replies};
ghost use Rattle.rules.specs.Fair.{StaysFair};
ghost use Rattle.sales.specs.State.{state_of, Does, GoesOnFairly};
ghost use Rattle.runs.specs.Calls.{call_of, calls_of, made_of};

use crate::call::Call;
use books::StepBook;
use sales::{Reply, Sale};
use sheets::PhaseSheet;
use std::alloc::{AllocError, Global};

/// Makes one call. Whatever calls led to this sale, the run that this one makes longer is fair.
pub fn perform<S: PhaseSheet + Drop, B: StepBook + Drop, T: PhaseSheet + Drop, C: StepBook + Drop>(
    sale: &mut Sale<S, B>,
    call: &Call<'_, T, C>,
) -> Reply
    ensures obeys { Does S.PhaseSheet B.StepBook sale.old (call_of T.PhaseSheet C.StepBook call.now) result sale.new }
    ensures fair { GoesOnFairly S.PhaseSheet B.StepBook sale.old (call_of T.PhaseSheet C.StepBook call.now) sale.new }
{
    // A `match`: calls are values that are kept and handed on in lists, not steps to run.
    match call {
        Call::Start(deposits) => sale.start(deposits),
        Call::Changeover(first) => sale.changeover(first),
        Call::Open(row) => sale.open(row),
        Call::Enter(step) => sale.enter(*step),
        Call::Raise(raise) => sale.raise(*raise),
        Call::Close => sale.close(),
    }
}

/// Makes any calls, one after the other, and answers the reply to each. Whatever calls led to this sale, the run that these
/// make longer is fair. Where there is no memory for the replies no call is made.
#[tactic(auto, using(rules::proofs::Runs::stays_fair))]
pub fn run_calls<
    S: PhaseSheet + Drop,
    B: StepBook + Drop,
    T: PhaseSheet + Drop,
    C: StepBook + Drop,
>(heap: Global, sale: &mut Sale<S, B>, calls: &[Call<'_, T, C>]) -> Result<Vec<Reply>, AllocError>
    ensures replied { IfOk result (λ v. v.items ≡ replies (state_of S.PhaseSheet B.StepBook sale.old) (calls_of T.PhaseSheet C.StepBook calls.now)) }
    ensures left { state_of S.PhaseSheet B.StepBook sale.new ≡ run (state_of S.PhaseSheet B.StepBook sale.old) (made_of result (calls_of T.PhaseSheet C.StepBook calls.now)) }
    ensures fair { StaysFair (state_of S.PhaseSheet B.StepBook sale.old) (made_of result (calls_of T.PhaseSheet C.StepBook calls.now)) (state_of S.PhaseSheet B.StepBook sale.new) }
{
    let mut told = Vec::with_capacity(heap, calls.len())?;
    run_into(sale, calls, &mut told);
    Ok(told)
}

// Makes the calls, and writes each reply behind the last one, for which there is room.
fn run_into<S: PhaseSheet + Drop, B: StepBook + Drop, T: PhaseSheet + Drop, C: StepBook + Drop>(
    sale: &mut Sale<S, B>,
    calls: &[Call<'_, T, C>],
    told: &mut Vec<Reply>,
)
    requires empty { told.old.items ≡ [] }
    requires room { length calls.now ≤ vec_capacity told.old }
    ensures replied { told.new.items ≡ replies (state_of S.PhaseSheet B.StepBook sale.old) (calls_of T.PhaseSheet C.StepBook calls.now) }
    ensures left { state_of S.PhaseSheet B.StepBook sale.new ≡ run (state_of S.PhaseSheet B.StepBook sale.old) (calls_of T.PhaseSheet C.StepBook calls.now) }
    ensures fair { StaysFair (state_of S.PhaseSheet B.StepBook sale.old) (calls_of T.PhaseSheet C.StepBook calls.now) (state_of S.PhaseSheet B.StepBook sale.new) }
{
    for call in calls {
        let reply = perform(sale, call);
        told.push_reserved(reply);
    }
}
