//! Calls of a book that are not refused: the number is held, and the shares keep the rule. Each
//! `unwrap` is proved to find an answer, and tests nothing.
ghost use Rattle.std.specs.Prelude.{◌≡◌, ◌-◌, ◌≤◌, true, length, Ok, slice_set};
ghost use Rattle.steps.specs.Rule.{shares_ok, step_ok};
ghost use Rattle.books.specs.Replies.{at, held, reshared, NextReply};

use books::StepBook;
use steps::{Shares, StepRecord};

// That a number is held is asked of four functions: a type for such a number would have to keep its book lent.

// The step of that number.
pub(crate) fn step_of<B: StepBook>(book: &B, number: u16) -> StepRecord
    requires { held (B.StepBook.steps book.now) number ≡ true }
    ensures same { result ≡ at (B.StepBook.steps book.now) number }
    ensures sound { step_ok result ≡ true }
{
    book.read(number).unwrap().stored()
}

// Replaces the share figures of the step of that number.
pub(crate) fn reshare<B: StepBook>(book: &mut B, number: u16, shares: Shares)
    requires number { held (B.StepBook.steps book.old) number ≡ true }
    requires shares { shares_ok shares ≡ true }
    ensures frame { B.StepBook.frame book.new ≡ B.StepBook.frame book.old }
    ensures steps { B.StepBook.steps book.new ≡ slice_set (B.StepBook.steps book.old) (number - 1) (reshared (at (B.StepBook.steps book.old) number) shares) }
{
    book.set(number, shares).unwrap()
}

// The number of the market's first step that ranks behind the one of the given number, or behind the top for 0.
pub(crate) fn next_of<B: StepBook>(book: &B, market: u8, number: u16) -> Option<u16>
    requires { number ≤ length (B.StepBook.steps book.now) }
    ensures { NextReply (B.StepBook.steps book.now) market number (Ok result) }
{
    book.next(market, number).unwrap()
}
