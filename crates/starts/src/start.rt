//! The start of a sale.
ghost use Rattle.std.specs.Prelude.{◌≡◌, ◌≤◌, map, length, OnOk};
ghost use Rattle.accounts.specs.Seated.{seated};
ghost use Rattle.rules.specs.Sales.{dollars, start, verdict};
ghost use Rattle.sale_parts.specs.State.{state_of, Tested, Does};

use accounts::{MOST_SEATS, Seats};
use books::StepBook;
use rules::{Answer, SaleFault};
use sale_parts::{SaleParts, outside};
use sheets::PhaseSheet;
use sums::first_above;

/// The shares on offer when a sale starts.
const ALL_LOTS: u8 = 100;

/// The most that a deposit can be, in dollars.
const MOST_DEPOSIT: u64 = 20_000_000;

/// Starts the sale with what the deposits buy, and answers the lots on offer.
pub fn start_sale<S: PhaseSheet + Drop, B: StepBook + Drop>(
    sale: &mut SaleParts<S, B>,
    deposits: &[u32],
) -> Result<Answer, SaleFault>
    ensures { Does S.PhaseSheet B.StepBook sale.old (start deposits.now) result sale.new }
{
    may_start(sale, deposits)?;
    sale.begin(ALL_LOTS, seats_for(deposits));
    Ok(Answer::Told(ALL_LOTS as u64))
}

// The tests of a start.
fn may_start<S: PhaseSheet + Drop, B: StepBook + Drop>(
    sale: &SaleParts<S, B>,
    deposits: &[u32],
) -> Result<(), SaleFault>
    ensures tested { Tested (verdict (state_of S.PhaseSheet B.StepBook sale.now) (start deposits.now)) result }
    ensures few { OnOk result (length deposits.now ≤ 24) }
{
    let count = deposits.len();
    if outside(count, MOST_SEATS) {
        return Err(SaleFault::SeatCount(count));
    }
    if let Some(place) = first_above(deposits, MOST_DEPOSIT) {
        return Err(SaleFault::DepositSize(place + 1));
    }
    if sale.taken() {
        return Err(SaleFault::Taken);
    }
    Ok(())
}

// The accounts that no more than 24 deposits buy.
fn seats_for(deposits: &[u32]) -> Seats
    requires { length deposits.now ≤ 24 }
    ensures { seated result ≡ map dollars deposits.now }
{
    Seats::of_deposits(deposits)
}
