//! A step as a list stores it, with no rule between its figures.

/// Who offers, in which market, at what discount and when. A later change of the shares leaves all of it.
#[derive(Clone, Copy, PartialEq, Eq, Debug)]
pub struct Bid {
    pub number: u16,
    pub seat: u8,
    pub market: u8,
    pub discount: u16,
    pub stamp: u64,
}

/// What became of the shares of a bid: how many stand, how many of those are losing, and how many were rejected.
#[derive(Clone, Copy, PartialEq, Eq, Debug)]
pub struct Shares {
    pub standing: u8,
    pub losing: u8,
    pub rejected: u8,
}

/// A bid and what became of its shares.
#[derive(Clone, Copy, PartialEq, Eq, Debug)]
pub struct StepRecord {
    pub bid: Bid,
    pub shares: Shares,
}
