//! The opening of a round.
ghost use Rattle.std.specs.Prelude.{◌≡◌, ◌≤◌, length, OnOk};
ghost use Rattle.rules.specs.Parts.{round_begun};
ghost use Rattle.rules.specs.Sales.{fixed, padded as padded_row, opening, verdict};
ghost use Rattle.sale_parts.specs.State.{state_of, Tested, Does};

use books::StepBook;
use rules::{Answer, SaleFault};
use sale_parts::SaleParts;
use sheets::PhaseSheet;
use std::array;
use sums::first_above;

/// The largest increment, in hundredths of a percent.
const MOST_INCREMENT: u64 = 1_000;

/// What an increment of 0 stands for.
const DEFAULT_INCREMENT: u16 = 50;

/// Opens a round with an increment for each market, and answers its number.
pub fn open_round<S: PhaseSheet + Drop, B: StepBook + Drop>(
    sale: &mut SaleParts<S, B>,
    row: &[u16],
) -> Result<Answer, SaleFault>
    ensures { Does S.PhaseSheet B.StepBook sale.old (opening row.now) result sale.new }
{
    may_open(sale, row)?;
    begin_round(sale, padded(row));
    Ok(Answer::Told(sale.ledger.round))
}

// The tests of an opening.
fn may_open<S: PhaseSheet + Drop, B: StepBook + Drop>(
    sale: &SaleParts<S, B>,
    row: &[u16],
) -> Result<(), SaleFault>
    ensures tested { Tested (verdict (state_of S.PhaseSheet B.StepBook sale.now) (opening row.now)) result }
    ensures short { OnOk result (length row.now ≤ 7) }
{
    if sale.ledger.ended {
        return Err(SaleFault::SaleEnded);
    }
    if sale.ledger.opened {
        return Err(SaleFault::RoundOpen);
    }
    if row.len() != sale.sheet.market_count() as usize {
        return Err(SaleFault::RowLength);
    }
    if first_above(row, MOST_INCREMENT).is_some() {
        return Err(SaleFault::IncrementSize);
    }
    Ok(())
}

// The next round begins, with these increments.
fn begin_round<S: PhaseSheet + Drop, B: StepBook + Drop>(
    sale: &mut SaleParts<S, B>,
    increments: [u16; 7],
)
    ensures { state_of S.PhaseSheet B.StepBook sale.new ≡ round_begun (state_of S.PhaseSheet B.StepBook sale.old) increments }
{
    sale.ledger.increments = increments;
    sale.ledger.round = sale.ledger.round.saturating_add(1);
    sale.ledger.opened = true;
    sale.ledger.raised = false;
}

// Seven increments: those of the row, and 0 where it has none.
fn padded(row: &[u16]) -> [u16; 7]
    requires { length row.now ≤ 7 }
    ensures { result ≡ padded_row row.now }
{
    array::from_fn(|place| row.get(place).map_or(0, |given| increment_of(*given)))
}

// An increment of 0 stands for the default.
fn increment_of(given: u16) -> u16
    ensures { result ≡ fixed given }
{
    if given == 0 { DEFAULT_INCREMENT } else { given }
}
