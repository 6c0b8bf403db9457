//! The rounds of a sale: their opening and their closing.
#![tactic(auto)]

mod close;
mod open;

pub use close::close_round;
pub use open::open_round;
