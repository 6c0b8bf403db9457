//! Closing a round over any book: losing shares are rejected, and the lots are handed out down the rank.
#![tactic(auto)]

mod award;
mod held;
mod reject;

pub use award::hand_out;
pub use reject::reject_losing;
