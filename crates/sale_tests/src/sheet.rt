//! A third sheet, for tests.
ghost use Rattle.std.specs.Prelude.{if◌then◌else◌, nat_eq};
ghost use Rattle.std.proofs.Common.{rules};

use sheets::PhaseSheet;

/// Two markets, the heaviest and the lightest, and two opening rounds that ask for half of the activity.
#[derive(Clone, Copy)]
pub struct TwoMarkets;

impl PhaseSheet for TwoMarkets {
    const MARKETS: u8 = 2;

    const OPENING_ROUNDS: u8 = 2;

    ghost figures = { λ _. record { markets = 2; openings = 2; percent = λ r. (if nat_eq r 1 then 50 else (if nat_eq r 2 then 50 else 0)); weight = λ m. (if nat_eq m 1 then 400 else (if nat_eq m 2 then 1 else 0)) } };

    ghost lawful = { Prim.search rules };

    fn market_count(&self) -> u8 {
        Self::MARKETS
    }

    fn opening_count(&self) -> u8 {
        Self::OPENING_ROUNDS
    }

    fn percent(&self, round: u64) -> u8 {
        match round {
            1 | 2 => 50,
            _ => 0,
        }
    }

    fn weight(&self, market: u8) -> u16 {
        match market {
            1 => 400,
            2 => 1,
            _ => 0,
        }
    }
}
