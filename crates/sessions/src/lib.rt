//! The session file, read: deposits and events of a procurement over bytes that are lent.
#![tactic(auto)]

mod head;
mod reader;
#[cfg(test)]
mod tests;

pub use head::LETTERS;
pub use reader::{MOST_BYTES, Reader, place_of};
