//! The accounts of a sale's seats, in a table of fixed size.
#![tactic(auto)]

mod account;
mod account_calls;
mod seats;
mod seats_calls;

pub use account::SeatAccount;
pub use seats::{MOST_SEATS, NoSeatLeft, Seats};
