//! The sale.
use books::StepBook;
use sale_parts::SaleParts;
use sheets::PhaseSheet;

/// A sale of the phase that its sheet describes, with its steps in a book.
#[derive(Drop)]
pub struct Sale<S: PhaseSheet + Drop, B: StepBook + Drop> {
    pub(crate) parts: SaleParts<S, B>,
}
