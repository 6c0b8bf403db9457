//! Sums of shares: of a whole book, of a seat's steps, and of a market's.
ghost use Rattle.std.specs.Prelude.{◌≡◌, ◌≤◌, ◌&&◌, if◌then◌else◌, ◌==◌, nat_eq};
ghost use Rattle.rules.specs.Lists.{total};
ghost use Rattle.rules.specs.Accepted.{of_both};
ghost use Rattle.rules.specs.Parts.{losing_of};
ghost use Rattle.rules.specs.Books.{bid_of, won, standing_of, of_seat};

use crate::measure::{Measure, sum_over};
use books::StepBook;
use steps::Step;

/// The shares that a step wins: those that stand and aren't losing.
#[derive(Clone, Copy)]
pub struct Won;

/// The losing shares of a step.
#[derive(Clone, Copy)]
pub struct Losing;

/// The standing shares of a step, losing ones among them.
#[derive(Clone, Copy)]
pub struct Standing;

/// The shares that a step wins, where it is the seat's.
#[derive(Clone, Copy)]
pub struct WonBy {
    pub seat: u8,
}

/// The shares that a step wins, where it is the seat's and of the market.
#[derive(Clone, Copy)]
pub struct WonByIn {
    pub seat: u8,
    pub market: u8,
}

impl Measure for Won {
    ghost amount = { λ _. won };

    ghost most = { 100 };

    fn amount(&self, step: Step) -> u32 {
        let shares = step.stored().shares;
        (shares.standing - shares.losing) as u32
    }
}

impl Measure for Losing {
    ghost amount = { λ _. losing_of };

    ghost most = { 100 };

    fn amount(&self, step: Step) -> u32 {
        step.stored().shares.losing as u32
    }
}

impl Measure for Standing {
    ghost amount = { λ _. standing_of };

    ghost most = { 100 };

    fn amount(&self, step: Step) -> u32 {
        step.stored().shares.standing as u32
    }
}

impl Measure for WonBy {
    ghost amount = { λ m x. (if nat_eq x.bid.seat m.seat then won x else 0) };

    ghost most = { 100 };

    fn amount(&self, step: Step) -> u32 {
        if step.stored().bid.seat == self.seat {
            Won.amount(step)
        } else {
            0
        }
    }
}

impl Measure for WonByIn {
    ghost amount = { λ m x. (if nat_eq x.bid.seat m.seat && x.bid.market == m.market then won x else 0) };

    ghost most = { 100 };

    fn amount(&self, step: Step) -> u32 {
        let bid = step.stored().bid;
        if bid.seat == self.seat && bid.market == self.market {
            Won.amount(step)
        } else {
            0
        }
    }
}

// Each sum that a sale asks for has a name of its own, which says it in the rules' words and bounds it: what is made of a
// sum must not wrap, and a closure for the measure would have no name to say the sum by.

/// The shares won in the book.
pub fn shares_won<B: StepBook>(book: &B) -> u32
    ensures sum { result ≡ total won (B.StepBook.steps book.now) }
    ensures most { result ≤ 102400 }
{
    sum_over(book, &Won)
}

/// The losing shares in the book.
pub fn shares_losing<B: StepBook>(book: &B) -> u32
    ensures sum { result ≡ total losing_of (B.StepBook.steps book.now) }
    ensures most { result ≤ 102400 }
{
    sum_over(book, &Losing)
}

/// The standing shares in the book.
pub fn shares_standing<B: StepBook>(book: &B) -> u32
    ensures sum { result ≡ total standing_of (B.StepBook.steps book.now) }
    ensures most { result ≤ 102400 }
{
    sum_over(book, &Standing)
}

/// The shares that the seat has won.
pub fn shares_won_by<B: StepBook>(book: &B, seat: u8) -> u32
    ensures sum { result ≡ of_seat seat won (B.StepBook.steps book.now) }
    ensures most { result ≤ 102400 }
{
    sum_over(book, &WonBy { seat })
}

/// The shares that the seat has won in the market.
pub fn shares_won_by_in<B: StepBook>(book: &B, seat: u8, market: u8) -> u32
    ensures sum { result ≡ of_both bid_of won seat market (B.StepBook.steps book.now) }
    ensures most { result ≤ 102400 }
{
    sum_over(book, &WonByIn { seat, market })
}
