//! Seats by their bonds.
ghost use Rattle.ranks.specs.Bonds.{bond_precedes, BondAlike};
ghost use Rattle.std.proofs.Common.{rules};

use crate::order::Ranked;
use std::cmp::Reverse;

/// A seat and the bond that it owes.
#[derive(Clone, Copy, PartialEq, Eq, Debug)]
pub struct SeatBond {
    pub seat: u8,
    pub dollars: u64,
}

impl Ranked for SeatBond {
    ghost group = { λ _. 0 };

    ghost precedes = { bond_precedes };

    ghost alike = { BondAlike };

    ghost apart = { Prim.search rules };

    ghost chains = { Prim.search rules };

    ghost ties = { Prim.search rules };

    ghost same = { Prim.search rules };

    /// All seats are ranked together.
    fn group(&self) -> u8 {
        0
    }

    fn precedes(&self, other: &SeatBond) -> bool {
        (Reverse(self.dollars), self.seat) < (Reverse(other.dollars), other.seat)
    }
}
