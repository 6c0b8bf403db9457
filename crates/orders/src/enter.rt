//! A new step.
ghost use Rattle.std.specs.Prelude.{◌≡◌, ◌≤◌, true, OnOk};
ghost use Rattle.rules.specs.Parts.{not_eligible};
ghost use Rattle.sale_parts.specs.State.{state_of, Does, TestedButFull, PassesButFull, entering, offered};

use books::StepBook;
use offers::NewStep;
use rules::{Answer, SaleFault};
use sale_parts::{SaleParts, outside};
use sheets::PhaseSheet;
use sums::standing_weight;

/// The largest discount, in hundredths of a percent.
pub(crate) const MOST_DISCOUNT: u16 = 10_000;

/// Enters a new step of the seat, and answers its number.
pub fn enter_step<S: PhaseSheet + Drop, B: StepBook + Drop>(
    sale: &mut SaleParts<S, B>,
    step: NewStep,
) -> Result<Answer, SaleFault>
    ensures { Does S.PhaseSheet B.StepBook sale.old (entering step) result sale.new }
{
    may_enter(sale, step)?;
    put_entered(sale, step)
}

// The tests of a new step, but for a full book, which the book itself tells.
fn may_enter<S: PhaseSheet + Drop, B: StepBook + Drop>(
    sale: &SaleParts<S, B>,
    step: NewStep,
) -> Result<(), SaleFault>
    ensures tested { TestedButFull (state_of S.PhaseSheet B.StepBook sale.now) (entering step) result }
    ensures sound { OnOk result (offered step.market step.discount step.shares ≡ true) }
{
    if !sale.ledger.opened {
        return Err(SaleFault::RoundShut);
    }
    if outside(step.seat as usize, sale.ledger.seats.count()) {
        return Err(SaleFault::NoSeat);
    }
    if outside(step.market as usize, sale.sheet.market_count() as usize) {
        return Err(SaleFault::NoMarket);
    }
    if outside(step.shares as usize, 100) {
        return Err(SaleFault::ShareCount);
    }
    if step.discount > MOST_DISCOUNT {
        return Err(SaleFault::DiscountSize);
    }
    if step.stamp < sale.ledger.last_stamp {
        return Err(SaleFault::StampBehind);
    }
    if sale.ledger.round > sale.sheet.opening_count() as u64 {
        return Err(SaleFault::EntryOver);
    }
    if not_eligible(sale, step) {
        return Err(SaleFault::NotEligible);
    }
    Ok(())
}

// Whether so many shares more, weighted, would exceed the seat's eligibility.
fn not_eligible<S: PhaseSheet + Drop, B: StepBook + Drop>(
    sale: &SaleParts<S, B>,
    step: NewStep,
) -> bool
    requires { 1 ≤ step.seat }
    ensures { result ≡ not_eligible (state_of S.PhaseSheet B.StepBook sale.now) step.seat step.market step.shares }
{
    let standing = standing_weight(&sale.sheet, &sale.book, step.seat);
    let wanted = standing + step.shares as u32 * sale.sheet.weight(step.market) as u32;
    sale.ledger.seats.eligible(step.seat) < wanted
}

// Puts the new step into the book, which refuses it where it is full.
fn put_entered<S: PhaseSheet + Drop, B: StepBook + Drop>(
    sale: &mut SaleParts<S, B>,
    step: NewStep,
) -> Result<Answer, SaleFault>
    requires tested { PassesButFull (state_of S.PhaseSheet B.StepBook sale.old) (entering step) }
    requires sound { offered step.market step.discount step.shares ≡ true }
    ensures { Does S.PhaseSheet B.StepBook sale.old (entering step) result sale.new }
{
    let number = sale.book.put(step)?;
    sale.ledger.last_stamp = step.stamp;
    Ok(Answer::Told(number as u64))
}
