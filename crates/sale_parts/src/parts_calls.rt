//! A sale's parts as they are made, and what several calls ask of them.
ghost use Rattle.std.specs.Prelude.{◌≡◌};
ghost use Rattle.accounts.specs.Seated.{seated};
ghost use Rattle.rules.specs.Parts.{begun};
ghost use Rattle.rules.specs.Sales.{fresh, taken as is_taken, outside as is_outside};
ghost use Rattle.sale_parts.specs.State.{state_of};

use crate::ledger::Ledger;
use crate::parts::SaleParts;
use accounts::Seats;
use books::StepBook;
use sheets::PhaseSheet;

/// Whether n is not from 1 to the top.
pub fn outside(n: usize, top: usize) -> bool
    ensures { result ≡ is_outside n top }
{
    !(1..=top).contains(&n)
}

impl<S: PhaseSheet + Drop, B: StepBook + Drop> SaleParts<S, B> {
    /// An unstarted sale: ended, with no seat, no clearing discount and every number 0.
    pub fn new(sheet: S, book: B) -> SaleParts<S, B>
        ensures { state_of S.PhaseSheet B.StepBook result ≡ fresh (S.PhaseSheet.figures sheet) (B.StepBook.frame book).size (B.StepBook.steps book) }
    {
        let ledger = Ledger {
            lots: 0,
            round: 0,
            opened: false,
            ended: true,
            raised: false,
            last_stamp: 0,
            increments: [0; 7],
            clearing: [None; 7],
            seats: Seats::none(),
        };
        SaleParts {
            sheet,
            book,
            ledger,
        }
    }

    /// Whether the sale has a seat, or its book a step.
    pub fn taken(&self) -> bool
        ensures { result ≡ is_taken (state_of S.PhaseSheet B.StepBook self.now) }
    {
        let (steps, _) = self.book.count();
        self.ledger.seats.count() > 0 || steps > 0
    }

    /// The sale begins with these lots and seats.
    pub fn begin(&mut self, lots: u8, seats: Seats)
        ensures { state_of S.PhaseSheet B.StepBook self.new ≡ begun (state_of S.PhaseSheet B.StepBook self.old) lots (seated seats) }
    {
        self.ledger.lots = lots;
        self.ledger.seats = seats;
        self.ledger.ended = false;
    }
}
