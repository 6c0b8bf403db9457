//! The parts of a sale, its state as the rules see it, and what it is for a call to follow them.
#![tactic(auto)]

mod ledger;
mod parts;
mod parts_calls;
mod stage;

pub use ledger::Ledger;
pub use parts::SaleParts;
pub use parts_calls::outside;
pub use stage::Stage;
