//! Records with a group and an order, and which of a group comes next.
#![tactic(auto)]

mod bond;
mod order;
#[cfg(test)]
mod tests;

pub use bond::SeatBond;
pub use order::{Ranked, next_in_order};
