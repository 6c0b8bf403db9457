//! The closing of a round.
ghost use Rattle.std.specs.Prelude.{◌≡◌, ◌-◌, ◌≤◌, slice_index_or};
ghost use Rattle.accounts.specs.Seated.{seated};
ghost use Rattle.rules.specs.Lists.{each_with};
ghost use Rattle.rules.specs.Sales.{nobody, owed as owed_of, ends as sale_ends, close, answer};
ghost use Rattle.rules.specs.Books.{weighted, standing_of};
ghost use Rattle.rules.specs.Parts.{closed_account, close_leaves};
ghost use Rattle.sale_parts.specs.State.{state_of, Does};

use accounts::Seats;
use books::StepBook;
use closing::{hand_out, reject_losing};
use rules::{Answer, SaleFault};
use sale_parts::SaleParts;
use sheets::PhaseSheet;
use sums::{shares_losing, standing_weight};

/// Closes the round, and answers how many shares were rejected and whether the sale ended.
pub fn close_round<S: PhaseSheet + Drop, B: StepBook + Drop>(
    sale: &mut SaleParts<S, B>,
) -> Result<Answer, SaleFault>
    ensures { Does S.PhaseSheet B.StepBook sale.old close result sale.new }
{
    if !sale.ledger.opened {
        return Err(SaleFault::RoundShut);
    }
    Ok(settle(sale))
}

// Settles the open round: cuts eligibility, rejects losing shares, and hands the lots out.
fn settle<S: PhaseSheet + Drop, B: StepBook + Drop>(sale: &mut SaleParts<S, B>) -> Answer
    ensures answer { result ≡ answer (state_of S.PhaseSheet B.StepBook sale.old) close }
    ensures left { state_of S.PhaseSheet B.StepBook sale.new ≡ close_leaves (state_of S.PhaseSheet B.StepBook sale.old) }
{
    let ended = ends(sale);
    cut_seats(
        &sale.sheet,
        &sale.book,
        sale.ledger.round,
        &mut sale.ledger.seats,
    );
    let rejected = shares_losing(&sale.book) as u64;
    reject_losing(&mut sale.book);
    sale.ledger.clearing = hand_out(&mut sale.book, sale.ledger.lots);
    sale.ledger.opened = false;
    sale.ledger.ended = ended;
    Answer::Closed { rejected, ended }
}

// Whether a closing now ends the sale: past the opening rounds, and nobody raised in the round.
fn ends<S: PhaseSheet + Drop, B: StepBook + Drop>(sale: &SaleParts<S, B>) -> bool
    ensures { result ≡ sale_ends (state_of S.PhaseSheet B.StepBook sale.now) }
{
    sale.ledger.round > sale.sheet.opening_count() as u64 && !sale.ledger.raised
}

// The activity owed in a round from the eligibility now, rounded up.
fn owed<S: PhaseSheet>(sheet: &S, round: u64, eligible: u32) -> u32
    ensures { result ≡ owed_of (S.PhaseSheet.figures sheet.now) round eligible }
{
    let percent = sheet.percent(round) as u64;
    ((percent * eligible as u64 + 99) / 100) as u32
}

// Cuts each seat's eligibility by what it owes and hasn't standing, one account at a time.
fn cut_seats<S: PhaseSheet, B: StepBook>(sheet: &S, book: &B, round: u64, seats: &mut Seats)
    ensures { seated seats.new ≡ each_with (closed_account (S.PhaseSheet.figures sheet.now) round (B.StepBook.steps book.now)) 1 (seated seats.old) }
{
    for seat in 1..=seats.count() as u8 {
        let by = lacking(sheet, book, round, seat, seats);
        seats.cut(seat, by);
    }
}

// What the seat owes in the round, from its eligibility now, and hasn't standing. The sale's parts come one by one, since its
// seats are lent to be cut meanwhile.
fn lacking<S: PhaseSheet, B: StepBook>(
    sheet: &S,
    book: &B,
    round: u64,
    seat: u8,
    seats: &Seats,
) -> u32
    requires { 1 ≤ seat }
    ensures { result ≡ owed_of (S.PhaseSheet.figures sheet.now) round (slice_index_or (seated seats.now) (seat - 1) nobody).eligible - weighted (S.PhaseSheet.figures sheet.now).weight seat standing_of (B.StepBook.steps book.now) }
{
    let owes = owed(sheet, round, seats.eligible(seat));
    owes.saturating_sub(standing_weight(sheet, book, seat))
}
