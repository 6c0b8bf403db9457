//! A seat's account that keeps its rule.
ghost use Rattle.std.specs.Prelude.{◌≤◌};

use rules::Account;

/// A seat's account: its eligibility now is never above the one bought.
#[derive(Clone, Copy)]
pub struct SeatAccount {
    pub(crate) account: Account,
    ghost within: { account.eligible ≤ account.bought },
}
