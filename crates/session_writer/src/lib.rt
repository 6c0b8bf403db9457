//! The session file, written: into memory that is lent, record by record or whole.
#![tactic(auto)]

#[cfg(test)]
mod tests;
mod whole;
mod writer;

pub use whole::put_session;
pub use writer::{put_deposit, put_event, put_header};
