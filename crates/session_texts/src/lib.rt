//! Text as a session file.
#![tactic(auto)]

mod draft;
mod fault;
mod hear;
mod make;
#[cfg(test)]
mod tests;

pub use fault::{MakeFault, TextFault};
pub use make::make_session;
