//! Phase sheets: how many markets and opening rounds a phase has, what activity it asks for, and what its markets weigh.
#![tactic(auto)]

mod full_term;
mod sheet;
mod single_year;
#[cfg(test)]
mod tests;
mod years;

pub use full_term::FullTerm;
pub use sheet::PhaseSheet;
pub use single_year::SingleYear;
pub use years::{YEAR_WEIGHTS, full_term_weight, year_weight};
