//! The changeover: a sale starts with what an ended first one left.
ghost use Rattle.std.specs.Prelude.{◌≡◌, ◌-◌, ◌≤◌};
ghost use Rattle.accounts.specs.Seated.{seated};
ghost use Rattle.rules.specs.Sales.{account, carried, changeover, verdict};
ghost use Rattle.rules.specs.Parts.{unsold, left_to};
ghost use Rattle.sale_parts.specs.State.{state_of, Tested, Does};

use accounts::Seats;
use books::StepBook;
use rules::{Answer, SaleFault};
use sale_parts::SaleParts;
use sheets::PhaseSheet;
use sums::{shares_won, shares_won_by};

/// Starts the sale with what the first one left unsold, and answers those lots.
pub fn change_over<
    S: PhaseSheet + Drop,
    B: StepBook + Drop,
    T: PhaseSheet + Drop,
    C: StepBook + Drop,
>(sale: &mut SaleParts<S, B>, first: &SaleParts<T, C>) -> Result<Answer, SaleFault>
    ensures { Does S.PhaseSheet B.StepBook sale.old (changeover (state_of T.PhaseSheet C.StepBook first.now)) result sale.new }
{
    may_change_over(sale, first)?;
    sale.begin(lots_left(first), seats_left(first));
    Ok(Answer::Told(sale.ledger.lots as u64))
}

// The tests of a changeover from the first sale.
fn may_change_over<
    S: PhaseSheet + Drop,
    B: StepBook + Drop,
    T: PhaseSheet + Drop,
    C: StepBook + Drop,
>(sale: &SaleParts<S, B>, first: &SaleParts<T, C>) -> Result<(), SaleFault>
    ensures { Tested (verdict (state_of S.PhaseSheet B.StepBook sale.now) (changeover (state_of T.PhaseSheet C.StepBook first.now))) result }
{
    if !first.ledger.ended {
        return Err(SaleFault::FirstGoing);
    }
    if first.sheet.market_count() > 1 {
        return Err(SaleFault::FirstMarkets);
    }
    if lots_left(first) == 0 {
        return Err(SaleFault::NothingLeft);
    }
    if sale.taken() {
        return Err(SaleFault::Taken);
    }
    Ok(())
}

// The lots that nobody has won.
fn lots_left<S: PhaseSheet + Drop, B: StepBook + Drop>(sale: &SaleParts<S, B>) -> u8
    ensures { result ≡ unsold (state_of S.PhaseSheet B.StepBook sale.now) }
{
    (sale.ledger.lots as u32).saturating_sub(shares_won(&sale.book)) as u8
}

// What a seat bought less its winnings, each share times the weight of the one market.
#[tactic(auto, using(crate::proofs::Carried::nothing_left))]
fn bought_left<S: PhaseSheet + Drop, B: StepBook + Drop>(sale: &SaleParts<S, B>, seat: u8) -> u32
    requires { 1 ≤ seat }
    ensures { result ≡ left_to (state_of S.PhaseSheet B.StepBook sale.now) seat (account (state_of S.PhaseSheet B.StepBook sale.now) (seat - 1)) }
{
    let spent = sale.sheet.weight(1) as u32 * shares_won_by(&sale.book, seat);
    let account = sale.ledger.seats.account(seat);
    account.map_or(0, |account| account.bought.saturating_sub(spent))
}

// The accounts that a later sale starts with: no more than the first one has, so that `unwrap` is proved and tests nothing.
fn seats_left<S: PhaseSheet + Drop, B: StepBook + Drop>(sale: &SaleParts<S, B>) -> Seats
    ensures { seated result ≡ carried (state_of S.PhaseSheet B.StepBook sale.now) 1 (seated sale.now.ledger.seats) }
{
    let mut seats = Seats::none();
    for seat in 1..=sale.ledger.seats.count() as u8 {
        seats.open_account(bought_left(sale, seat)).unwrap();
    }
    seats
}
