//! Calls of a sale as values, made one after the other.
#![tactic(auto)]

mod call;
mod run;

pub use call::Call;
pub use run::{perform, run_calls};
