//! The parts of a sale.
use crate::ledger::Ledger;
use books::StepBook;
use sheets::PhaseSheet;

/// The sheet of a sale's phase, the book that keeps its steps, and its ledger. The calls are made of these; `Sale` keeps them to itself.
#[derive(Drop)]
pub struct SaleParts<S: PhaseSheet + Drop, B: StepBook + Drop> {
    pub sheet: S,
    pub book: B,
    pub ledger: Ledger,
}
