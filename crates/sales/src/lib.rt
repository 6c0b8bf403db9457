//! A sale over any phase sheet and any step book: its calls, each held to the rules and fair in every run, and questions to it.
#![tactic(auto)]

mod calls;
mod questions;
mod sale;

pub use calls::Reply;
pub use sale::Sale;
