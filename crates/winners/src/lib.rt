//! The winning steps of a market, in rank, over any book.
#![tactic(auto)]

mod winning;

pub use winning::winners;
