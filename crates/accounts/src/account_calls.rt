//! The calls of one account.
ghost use Rattle.std.specs.Prelude.{◌≡◌};
ghost use Rattle.accounts.specs.Accounts.{opened_with, cut_by};

use crate::account::SeatAccount;
use rules::Account;

impl SeatAccount {
    /// An account of which nothing is used yet.
    pub fn opened(bought: u32) -> SeatAccount
        ensures { result.account ≡ opened_with bought }
    {
        SeatAccount {
            account: Account {
                bought,
                eligible: bought,
            },
        }
    }

    /// Lowers the eligibility now, to nothing at most.
    pub fn cut(&mut self, by: u32)
        ensures { self.new.account ≡ cut_by by self.old.account }
    {
        self.account.eligible = self.account.eligible.saturating_sub(by);
    }
}

/// What stands in a table where there is no seat yet.
impl Default for SeatAccount {
    ghost is_default = { λ a. a.account ≡ opened_with 0 };

    fn default() -> SeatAccount {
        SeatAccount::opened(0)
    }
}
