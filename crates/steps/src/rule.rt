//! The step's rule, and a step from a record that keeps it.
ghost use Rattle.std.specs.Prelude.{◌≡◌, true};
ghost use Rattle.steps.specs.Rule.{step_ok, offer_ok, shares_ok};
ghost use Rattle.steps.specs.Checked.{Checked};

use crate::fault::BookFault;
use crate::record::{Shares, StepRecord};
use crate::step::Step;

/// Whether a market and a discount keep the step's rule.
pub fn offer_keeps(market: u8, discount: u16) -> bool
    ensures { result ≡ offer_ok market discount }
{
    1 <= market && market <= 7 && discount <= 10_000
}

impl Shares {
    /// Whether the figures keep the step's rule.
    pub fn keep_rule(self) -> bool
        ensures { result ≡ shares_ok self }
    {
        self.losing <= self.standing && u16::from(self.standing) + u16::from(self.rejected) <= 100
    }
}

/// The step of a record that keeps the rule; any other is refused.
impl TryFrom<StepRecord> for Step {
    type Error = BookFault;

    ghost try_from_gives = { Checked };

    fn try_from(stored: StepRecord) -> Result<Step, BookFault> {
        let offer = offer_keeps(stored.bid.market, stored.bid.discount);
        if offer && stored.shares.keep_rule() {
            Ok(Step { stored })
        } else {
            Err(BookFault::BadStep)
        }
    }
}

impl Step {
    /// The record of the step.
    pub fn stored(self) -> StepRecord
        ensures same { result ≡ self.stored }
        ensures sound { step_ok result ≡ true }
    {
        self.stored
    }
}
