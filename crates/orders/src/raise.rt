//! A raise.
ghost use Rattle.std.specs.Prelude.{◌≡◌, ◌-◌, ◌≤◌, true, IfOk, Some, OnOk, slice_set};
ghost use Rattle.books.specs.Replies.{held, at};
ghost use Rattle.rules.specs.Sales.{step_at, low_raise, less};
ghost use Rattle.sale_parts.specs.State.{state_of, Does, TestedButFull, PassesButFull, raising, offered};

use crate::enter::MOST_DISCOUNT;
use books::StepBook;
use offers::{NewStep, Raise};
use rules::{Answer, SaleFault};
use sale_parts::{SaleParts, outside};
use sheets::PhaseSheet;
use steps::{Shares, StepRecord};

/// Moves shares of a step to a larger discount, which makes a new step, and answers its number.
pub fn raise_step<S: PhaseSheet + Drop, B: StepBook + Drop>(
    sale: &mut SaleParts<S, B>,
    raise: Raise,
) -> Result<Answer, SaleFault>
    ensures { Does S.PhaseSheet B.StepBook sale.old (raising raise) result sale.new }
{
    let step = may_raise(sale, raise)?;
    move_shares(sale, raise, step)
}

// The tests of a raise, in its own order, which has those that a new step has too between others; but for a full book, which the book itself tells; and the step that is raised.
fn may_raise<S: PhaseSheet + Drop, B: StepBook + Drop>(
    sale: &SaleParts<S, B>,
    raise: Raise,
) -> Result<StepRecord, SaleFault>
    ensures tested { TestedButFull (state_of S.PhaseSheet B.StepBook sale.now) (raising raise) result }
    ensures step { IfOk result (λ x. x ≡ step_at (state_of S.PhaseSheet B.StepBook sale.now) raise.step) }
    ensures held { OnOk result (held (B.StepBook.steps sale.now.book) raise.step ≡ true) }
    ensures own { IfOk result (λ x. x.bid.seat ≡ raise.seat) }
    ensures sound { IfOk result (λ x. (offered x.bid.market raise.discount raise.shares ≡ true) × (raise.shares ≤ x.shares.standing)) }
{
    if !sale.ledger.opened {
        return Err(SaleFault::RoundShut);
    }
    if outside(raise.seat as usize, sale.ledger.seats.count()) {
        return Err(SaleFault::NoSeat);
    }
    let step = sale.book.read(raise.step)?.stored();
    if step.bid.seat != raise.seat {
        return Err(SaleFault::OtherSeat);
    }
    if outside(raise.shares as usize, step.shares.standing as usize) {
        return Err(SaleFault::RaiseShares);
    }
    if raise.discount > MOST_DISCOUNT {
        return Err(SaleFault::DiscountSize);
    }
    if raise.stamp < sale.ledger.last_stamp {
        return Err(SaleFault::StampBehind);
    }
    let place = step.bid.market as usize - 1;
    let clearing = sale.ledger.clearing[place].ok_or(SaleFault::NoClearing)?;
    if is_low(
        clearing,
        sale.ledger.increments[place],
        step.bid.discount,
        raise.discount,
    ) {
        return Err(SaleFault::LowRaise);
    }
    Ok(step)
}

// Moves shares of the step into a new one. The new step is put first, so that a full book refuses with nothing changed.
fn move_shares<S: PhaseSheet + Drop, B: StepBook + Drop>(
    sale: &mut SaleParts<S, B>,
    raise: Raise,
    step: StepRecord,
) -> Result<Answer, SaleFault>
    requires tested { PassesButFull (state_of S.PhaseSheet B.StepBook sale.old) (raising raise) }
    requires step { step ≡ step_at (state_of S.PhaseSheet B.StepBook sale.old) raise.step }
    requires held { held (B.StepBook.steps sale.old.book) raise.step ≡ true }
    requires own { step.bid.seat ≡ raise.seat }
    requires sound { offered step.bid.market raise.discount raise.shares ≡ true }
    requires enough { raise.shares ≤ step.shares.standing }
    ensures { Does S.PhaseSheet B.StepBook sale.old (raising raise) result sale.new }
{
    let entered = sale.book.put(NewStep {
        seat: raise.seat,
        market: step.bid.market,
        shares: raise.shares,
        discount: raise.discount,
        stamp: raise.stamp,
    })?;
    take_out(&mut sale.book, step, raise.step, raise.shares);
    sale.ledger.last_stamp = raise.stamp;
    sale.ledger.raised = true;
    Ok(Answer::Told(entered as u64))
}

// The four meet only here. Takes shares out of the step, its losing ones first. What remains keeps number, discount and stamp.
fn take_out<B: StepBook>(book: &mut B, step: StepRecord, number: u16, shares: u8)
    requires step { step ≡ at (B.StepBook.steps book.old) number }
    requires held { held (B.StepBook.steps book.old) number ≡ true }
    requires enough { shares ≤ step.shares.standing }
    ensures frame { B.StepBook.frame book.new ≡ B.StepBook.frame book.old }
    ensures steps { B.StepBook.steps book.new ≡ slice_set (B.StepBook.steps book.old) (number - 1) (less shares step) }
{
    let standing = step.shares.standing - shares;
    let losing = step.shares.losing.saturating_sub(shares);
    // the figures keep the step's rule, so that the book has nothing to refuse
    let _ = book.set(
        number,
        Shares {
            standing,
            losing,
            ..step.shares
        },
    );
}

// Four figures that meet only here. Whether a raise of a step at its own discount falls short of the clearing discount and the increment, or isn't above its own.
fn is_low(clearing: u16, increment: u16, own: u16, discount: u16) -> bool
    ensures { result ≡ low_raise (Some clearing) increment own discount }
{
    (discount as u32) < clearing as u32 + increment as u32 || discount <= own
}
