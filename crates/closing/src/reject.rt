//! Losing shares, rejected.
ghost use Rattle.std.specs.Prelude.{◌≡◌, ◌-◌, true, map, slice_set};
ghost use Rattle.books.specs.Replies.{at, held};
ghost use Rattle.rules.specs.Books.{rejects};

use crate::held::{reshare, step_of};
use books::StepBook;
use steps::Shares;

/// Rejects every losing share.
pub fn reject_losing<B: StepBook>(book: &mut B)
    ensures frame { B.StepBook.frame book.new ≡ B.StepBook.frame book.old }
    ensures steps { B.StepBook.steps book.new ≡ map rejects (B.StepBook.steps book.old) }
{
    let (count, _) = book.count();
    for number in 1..=count {
        reject_step(book, number);
    }
}

// Rejects the losing shares of one step.
fn reject_step<B: StepBook>(book: &mut B, number: u16)
    requires { held (B.StepBook.steps book.old) number ≡ true }
    ensures frame { B.StepBook.frame book.new ≡ B.StepBook.frame book.old }
    ensures steps { B.StepBook.steps book.new ≡ slice_set (B.StepBook.steps book.old) (number - 1) (rejects (at (B.StepBook.steps book.old) number)) }
{
    let shares = step_of(book, number).shares;
    let standing = shares.standing - shares.losing;
    let rejected = shares.rejected + shares.losing;
    let left = Shares {
        standing,
        losing: 0,
        rejected,
    };
    reshare(book, number, left);
}
