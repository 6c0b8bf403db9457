//! The steps of a sale: plain records, the rule that a step keeps, the rank of steps, and why a book refuses one.
#![tactic(auto)]

mod fault;
mod rank;
mod record;
mod rule;
mod step;

pub use fault::BookFault;
pub use record::{Bid, Shares, StepRecord};
pub use rule::offer_keeps;
pub use step::Step;
