//! A call of a sale, as a value.
use books::StepBook;
use offers::{NewStep, Raise};
use sales::Sale;
use sheets::PhaseSheet;

/// One of the six calls. Deposits, a row of increments and the first sale are borrowed.
#[derive(Drop)]
pub enum Call<'a, T: PhaseSheet + Drop, C: StepBook + Drop> {
    Start(&'a [u32]),
    Changeover(&'a Sale<T, C>),
    Open(&'a [u16]),
    Enter(NewStep),
    Raise(Raise),
    Close,
}
