//! The sheet of a sale by single years.
ghost use Rattle.sheets.specs.Phases.{single_year};
ghost use Rattle.std.proofs.Common.{rules};

use crate::sheet::PhaseSheet;
use crate::years::year_weight;

/// A market for each of the seven years, with four opening rounds that each ask for a quarter more activity.
#[derive(Clone, Copy)]
pub struct SingleYear;

impl PhaseSheet for SingleYear {
    const MARKETS: u8 = 7;

    const OPENING_ROUNDS: u8 = 4;

    ghost figures = { λ _. single_year };

    ghost lawful = { Prim.search rules };

    fn market_count(&self) -> u8 {
        Self::MARKETS
    }

    fn opening_count(&self) -> u8 {
        Self::OPENING_ROUNDS
    }

    fn percent(&self, round: u64) -> u8 {
        match round {
            1 => 25,
            2 => 50,
            3 => 75,
            4 => 100,
            _ => 0,
        }
    }

    fn weight(&self, market: u8) -> u16 {
        year_weight(market).unwrap_or(0)
    }
}
