//! The calls of a sale.
ghost use Rattle.std.specs.Prelude.{◌≡◌};
ghost use Rattle.rules.specs.Sales.{fresh, start, changeover, opening, close};
ghost use Rattle.sale_parts.specs.State.{entering, raising};
ghost use Rattle.sales.specs.State.{state_of, Does, GoesOnFairly};

use crate::sale::Sale;
use books::StepBook;
use offers::{NewStep, Raise};
use rules::{Answer, SaleFault};
use sale_parts::SaleParts;
use sheets::PhaseSheet;

/// What a call is told: an answer, or why it is refused.
pub type Reply = Result<Answer, SaleFault>;

// That each call makes a fair run follows from the theorem over every run.
#[tactic(auto, using(rules::proofs::Runs::stays_fair))]
impl<S: PhaseSheet + Drop, B: StepBook + Drop> Sale<S, B> {
    /// An unstarted sale: ended, with no seat, no clearing discount and every number 0.
    pub fn new(sheet: S, book: B) -> Sale<S, B>
        ensures { state_of S.PhaseSheet B.StepBook result ≡ fresh (S.PhaseSheet.figures sheet) (B.StepBook.frame book).size (B.StepBook.steps book) }
    {
        Sale {
            parts: SaleParts::new(sheet, book),
        }
    }

    /// Starts the sale with what the deposits buy, and answers the lots on offer.
    pub fn start(&mut self, deposits: &[u32]) -> Reply
        ensures obeys { Does S.PhaseSheet B.StepBook self.old (start deposits.now) result self.new }
        ensures fair { GoesOnFairly S.PhaseSheet B.StepBook self.old (start deposits.now) self.new }
    {
        starts::start_sale(&mut self.parts, deposits)
    }

    /// Starts the sale with what the first one left unsold, and answers those lots.
    pub fn changeover<T: PhaseSheet + Drop, C: StepBook + Drop>(
        &mut self,
        first: &Sale<T, C>,
    ) -> Reply
        ensures obeys { Does S.PhaseSheet B.StepBook self.old (changeover (state_of T.PhaseSheet C.StepBook first.now)) result self.new }
        ensures fair { GoesOnFairly S.PhaseSheet B.StepBook self.old (changeover (state_of T.PhaseSheet C.StepBook first.now)) self.new }
    {
        starts::change_over(&mut self.parts, &first.parts)
    }

    /// Opens a round with an increment for each market, and answers its number.
    pub fn open(&mut self, row: &[u16]) -> Reply
        ensures obeys { Does S.PhaseSheet B.StepBook self.old (opening row.now) result self.new }
        ensures fair { GoesOnFairly S.PhaseSheet B.StepBook self.old (opening row.now) self.new }
    {
        rounds::open_round(&mut self.parts, row)
    }

    /// Enters a new step of the seat, and answers its number.
    pub fn enter(&mut self, step: NewStep) -> Reply
        ensures obeys { Does S.PhaseSheet B.StepBook self.old (entering step) result self.new }
        ensures fair { GoesOnFairly S.PhaseSheet B.StepBook self.old (entering step) self.new }
    {
        orders::enter_step(&mut self.parts, step)
    }

    /// Moves shares of a step to a larger discount, which makes a new step, and answers its number.
    pub fn raise(&mut self, raise: Raise) -> Reply
        ensures obeys { Does S.PhaseSheet B.StepBook self.old (raising raise) result self.new }
        ensures fair { GoesOnFairly S.PhaseSheet B.StepBook self.old (raising raise) self.new }
    {
        orders::raise_step(&mut self.parts, raise)
    }

    /// Closes the round, and answers how many shares were rejected and whether the sale ended.
    pub fn close(&mut self) -> Reply
        ensures obeys { Does S.PhaseSheet B.StepBook self.old close result self.new }
        ensures fair { GoesOnFairly S.PhaseSheet B.StepBook self.old close self.new }
    {
        rounds::close_round(&mut self.parts)
    }
}
