//! One line of a session's text: what it says, and how it is written.
#![tactic(auto)]

mod fault;
mod fields;
mod line;
mod parse;
mod row;
#[cfg(test)]
mod tests;
mod text;
mod words;

pub use fault::LineFault;
pub use line::{Line, lent};
pub use parse::parse_line;
pub use text::line_text;
