//! The table of a sale's accounts.
ghost use Rattle.std.specs.Prelude.{◌≡◌, ◌≤◌, length};

use crate::account::SeatAccount;

/// The most seats that a sale can have.
pub const MOST_SEATS: usize = 24;

/// A sale has as many seats as it can have.
#[derive(Clone, Copy, PartialEq, Eq, Debug)]
pub struct NoSeatLeft;

/// The accounts of up to 24 seats, that of seat k at place k - 1. What the rows past the count hold does not matter. A count
/// stands beside the table since a table of accounts is copied, as an `ArrayVec` can't be.
#[derive(Clone, Copy)]
pub struct Seats {
    pub(crate) count: usize,
    pub(crate) rows: [SeatAccount; MOST_SEATS],
    ghost few: { count ≤ 24 },
    ghost full: { length rows ≡ 24 },
}
