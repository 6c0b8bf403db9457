//! Step books: the steps of a sale in order of entry, and which of a market's steps ranks next.
#![tactic(auto)]

mod book;
mod flat;
mod flat_calls;
mod list;
mod memory;
mod owned;
mod owned_calls;

pub use book::{MOST_STEPS, StepBook, place_of};
pub use flat::FlatBook;
pub use owned::VecBook;
