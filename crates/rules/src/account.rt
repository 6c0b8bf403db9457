//! A seat's account.

/// The eligibility that a seat bought, and what it has now, in hundredths of a weighted share.
#[derive(Clone, Copy, PartialEq, Eq, Debug)]
pub struct Account {
    pub bought: u32,
    pub eligible: u32,
}
