//! The sheet of a sale of the full term.
ghost use Rattle.sheets.specs.Phases.{full_term};
ghost use Rattle.std.proofs.Common.{rules};

use crate::sheet::PhaseSheet;
use crate::years::full_term_weight;

/// One market for all seven years at once, with one opening round in which the whole activity is owed.
#[derive(Clone, Copy)]
pub struct FullTerm;

impl PhaseSheet for FullTerm {
    const MARKETS: u8 = 1;

    const OPENING_ROUNDS: u8 = 1;

    ghost figures = { λ _. full_term };

    ghost lawful = { Prim.search rules };

    fn market_count(&self) -> u8 {
        Self::MARKETS
    }

    fn opening_count(&self) -> u8 {
        Self::OPENING_ROUNDS
    }

    fn percent(&self, round: u64) -> u8 {
        if round == 1 { 100 } else { 0 }
    }

    fn weight(&self, market: u8) -> u16 {
        if market == 1 { full_term_weight() } else { 0 }
    }
}
