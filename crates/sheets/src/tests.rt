//! The figures of the two sheets, and a third whose figures stand at the edges.
ghost use Rattle.std.specs.Prelude.{◌*◌, if◌then◌else◌, nat_eq};
ghost use Rattle.std.proofs.Common.{rules};

use crate::full_term::FullTerm;
use crate::sheet::PhaseSheet;
use crate::single_year::SingleYear;
use crate::years::{full_term_weight, year_weight};
use std::array;

/// Two markets, the heaviest and the lightest, and eight opening rounds of which only the last asks for activity.
struct Edges;

impl PhaseSheet for Edges {
    const MARKETS: u8 = 2;

    const OPENING_ROUNDS: u8 = 8;

    ghost figures = { λ _. record { markets = 2; openings = 8; percent = λ r. (if nat_eq r 8 then 100 else 0); weight = λ m. (if nat_eq m 1 then 400 else (if nat_eq m 2 then 1 else 0)) } };

    ghost lawful = { Prim.search rules };

    fn market_count(&self) -> u8 {
        Self::MARKETS
    }

    fn opening_count(&self) -> u8 {
        Self::OPENING_ROUNDS
    }

    fn percent(&self, round: u64) -> u8 {
        if round == 8 { 100 } else { 0 }
    }

    fn weight(&self, market: u8) -> u16 {
        match market {
            1 => 400,
            2 => 1,
            _ => 0,
        }
    }
}

// What a share of every market weighs together: the laws alone say that it fits.
fn all_markets<S: PhaseSheet>(sheet: &S) -> u16 {
    let mut sum = 0;
    for market in 1..=sheet.market_count() {
        sum += sheet.weight(market);
    }
    sum
}

// The percents of the rounds from 0 to 9.
fn percents<S: PhaseSheet>(sheet: &S) -> [u8; 10] {
    array::from_fn(|round| sheet.percent(round as u64))
}

#[test]
fn the_full_term_is_one_market(rt: HostRuntime) {
    assert_eq!(rt;
        (FullTerm.market_count(), FullTerm.opening_count()),
        (
            <FullTerm as PhaseSheet>::MARKETS,
            <FullTerm as PhaseSheet>::OPENING_ROUNDS
        )
    );
    assert_eq!(rt; percents(&FullTerm), [0, 100, 0, 0, 0, 0, 0, 0, 0, 0]);
    assert_eq!(rt;
        (FullTerm.weight(0), FullTerm.weight(1), FullTerm.weight(2)),
        (0, 400, 0)
    );
}

#[test]
fn each_year_is_a_market(rt: HostRuntime) {
    assert_eq!(rt; percents(&SingleYear), [0, 25, 50, 75, 100, 0, 0, 0, 0, 0]);
    assert_eq!(rt; (SingleYear.weight(0), SingleYear.weight(8)), (0, 0));
    assert_eq!(rt;
        (
            year_weight(0),
            year_weight(1),
            year_weight(7),
            year_weight(8),
        ),
        (None, Some(100), Some(14), None)
    );
    assert_eq!(rt; all_markets(&SingleYear), full_term_weight());
}

#[test]
fn generic_code_knows_a_sheet_by_its_figures(rt: HostRuntime) {
    assert_eq!(rt; all_markets(&FullTerm), 400);
    assert_eq!(rt; all_markets(&Edges), 401);
    assert_eq!(rt; percents(&Edges), [0, 0, 0, 0, 0, 0, 0, 0, 100, 0]);
}
