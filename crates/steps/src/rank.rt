//! The rank of steps: by market, the better bid first.
ghost use Rattle.steps.specs.Rank.{market_of, step_precedes, StepAlike};
ghost use Rattle.std.proofs.Common.{rules};

use crate::record::StepRecord;
use ranks::Ranked;
use std::cmp::Reverse;

impl Ranked for StepRecord {
    ghost group = { market_of };

    ghost precedes = { step_precedes };

    ghost alike = { StepAlike };

    ghost apart = { Prim.search rules };

    ghost chains = { Prim.search rules };

    ghost ties = { Prim.search rules };

    ghost same = { Prim.search rules };

    fn group(&self) -> u8 {
        self.bid.market
    }

    fn precedes(&self, other: &StepRecord) -> bool {
        let (a, b) = (self.bid, other.bid);
        (Reverse(a.discount), a.stamp, a.number) < (Reverse(b.discount), b.stamp, b.number)
    }
}
