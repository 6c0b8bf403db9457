//! A session file as text.
#![tactic(auto)]

mod list;
#[cfg(test)]
mod tests;

pub use list::list_session;
