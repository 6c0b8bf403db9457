//! What is summed over the steps of a book, and the sum.
ghost use Rattle.std.specs.Prelude.{◌≡◌, ℕ, ◌*◌, ◌≤◌};
ghost use Rattle.rules.specs.Lists.{total};
ghost use Rattle.steps.specs.declared.record.StepRecord.{StepRecord};

use books::StepBook;
use steps::Step;

/// A number for each step of a book, to be summed, and the most that one step can add.
pub trait Measure {
    ghost amount: { Self → StepRecord → ℕ };

    ghost most: { ℕ };

    /// The number of one step. It is never above 40,000, 100 shares of weight 400, so that no sum over a book wraps.
    fn amount(&self, step: Step) -> u32
        ensures value { result ≡ amount self.now step.stored }
        ensures most { result ≤ most }
        ensures small { result ≤ 40000 };
}

/// The sum over all steps of the book, of which there are 1,024 at most.
pub fn sum_over<B: StepBook, M: Measure>(book: &B, measure: &M) -> u32
    ensures sum { result ≡ total (M.Measure.amount measure.now) (B.StepBook.steps book.now) }
    ensures most { result ≤ 1024 * M.Measure.most }
{
    let (count, _) = book.count();
    let mut sum: u32 = 0;
    for number in 1..=count {
        if let Ok(step) = book.read(number) {
            sum += measure.amount(step);
        }
    }
    sum
}
