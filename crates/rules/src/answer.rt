//! What an accepted call answers.

/// What a call is told: a number (lots, a round or a step), or what a closing did.
#[derive(Clone, Copy, PartialEq, Eq, Debug)]
pub enum Answer {
    Told(u64),
    Closed {
        /// How many shares were rejected.
        rejected: u64,
        /// Whether the sale ended.
        ended: bool,
    },
}
