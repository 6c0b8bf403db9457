//! What a sale keeps besides its sheet and its book.
use accounts::Seats;

/// The figures of a sale. Increments and clearing discounts have seven places, that of market m at m - 1: two tables, since an
/// opening writes the one whole and a closing the other.
#[derive(Clone, Copy)]
pub struct Ledger {
    pub lots: u8,
    pub round: u64,
    // Two flags, as the rules have them: a sale can be neither open nor ended, and its parts, which anyone may set, both.
    pub opened: bool,
    pub ended: bool,
    /// Whether a raise was accepted in this round.
    pub raised: bool,
    pub last_stamp: u64,
    pub increments: [u16; 7],
    pub clearing: [Option<u16>; 7],
    pub seats: Seats,
}
