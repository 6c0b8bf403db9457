//! One step of a sale.
ghost use Rattle.std.specs.Prelude.{◌+◌, ◌≤◌};

use crate::record::StepRecord;

/// A record that keeps the step's rule. It is made from a record after a check and replaced whole.
#[derive(Clone, Copy, PartialEq, Eq, Debug)]
pub struct Step {
    pub(crate) stored: StepRecord,
    ghost market_least: { 1 ≤ stored.bid.market },
    ghost market_most: { stored.bid.market ≤ 7 },
    ghost discount_most: { stored.bid.discount ≤ 10000 },
    ghost losing_most: { stored.shares.losing ≤ stored.shares.standing },
    ghost shares_most: { stored.shares.standing + stored.shares.rejected ≤ 100 },
}
