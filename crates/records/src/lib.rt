//! One event of a session file: the value, and the 16 bytes that keep it.
#![tactic(auto)]

mod codec;
mod event;
mod kind;
#[cfg(test)]
mod tests;

pub use codec::{decode, encode};
pub use event::Event;
pub use offers::{NewStep, Raise};
