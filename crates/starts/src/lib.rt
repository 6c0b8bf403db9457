//! How a sale begins: its start with deposits, and the changeover from a first sale.
#![tactic(auto)]

mod changeover;
mod start;

pub use changeover::change_over;
pub use start::start_sale;
