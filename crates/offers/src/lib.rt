//! What a seat asks of a sale: a new step, or a raise of one of its steps.
#![tactic(auto)]

/// A new step: shares at a discount in a market, and the stamp of the time at which it was asked for.
#[derive(Clone, Copy, PartialEq, Eq, Debug)]
pub struct NewStep {
    pub seat: u8,
    pub market: u8,
    pub shares: u8,
    /// In hundredths of a percent.
    pub discount: u16,
    pub stamp: u64,
}

/// A raise: shares of the seat's step of that number are moved to a larger discount.
#[derive(Clone, Copy, PartialEq, Eq, Debug)]
pub struct Raise {
    pub seat: u8,
    /// The number of the step that is raised.
    pub step: u16,
    pub shares: u8,
    pub discount: u16,
    pub stamp: u64,
}
