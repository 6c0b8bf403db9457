//! The orders of a seat: a new step, and a raise.
#![tactic(auto)]

mod enter;
mod raise;

pub use enter::enter_step;
pub use raise::raise_step;
