//! The weighted sum of a seat's standing shares.
ghost use Rattle.std.specs.Prelude.{◌≡◌, ◌*◌, ◌≤◌, if◌then◌else◌, nat_eq};
ghost use Rattle.rules.specs.Books.{standing_of, weighted};

use crate::measure::{Measure, sum_over};
use books::StepBook;
use sheets::PhaseSheet;
use steps::Step;

/// The standing shares of a step times its market's weight, where it is the seat's.
#[derive(Drop)]
pub struct StandingWeight<'a, S: PhaseSheet> {
    pub sheet: &'a S,
    pub seat: u8,
}

impl<'a, S: PhaseSheet> Measure for StandingWeight<'a, S> {
    ghost amount = { λ m x. (if nat_eq x.bid.seat m.seat then standing_of x * (S.PhaseSheet.figures m.sheet.now).weight x.bid.market else 0) };

    ghost most = { 40000 };

    fn amount(&self, step: Step) -> u32 {
        let record = step.stored();
        if record.bid.seat == self.seat {
            record.shares.standing as u32 * self.sheet.weight(record.bid.market) as u32
        } else {
            0
        }
    }
}

/// The standing shares of the seat, each times its market's weight; losing ones count.
pub fn standing_weight<S: PhaseSheet, B: StepBook>(sheet: &S, book: &B, seat: u8) -> u32
    ensures sum { result ≡ weighted (S.PhaseSheet.figures sheet.now).weight seat standing_of (B.StepBook.steps book.now) }
    ensures most { result ≤ 40960000 }
{
    sum_over(book, &StandingWeight { sheet, seat })
}
