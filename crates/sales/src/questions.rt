//! Questions to a sale, which alter nothing.
ghost use Rattle.std.specs.Prelude.{◌≡◌, ◌-◌, ◌<◌, true, false, length, IfOk, MatchResult};
ghost use Rattle.winners.specs.Winning.{winning};
ghost use Rattle.rules.specs.declared.fault.SaleFault.TheVariants.{NoMarket};
ghost use Rattle.rules.specs.Sales.{account, increment, clearing_at, standing_weight, won_in, outside as is_outside};
ghost use Rattle.rules.specs.Lists.{total};
ghost use Rattle.rules.specs.Accepted.{of_both};
ghost use Rattle.rules.specs.Books.{bid_of, won, standing_of};
ghost use Rattle.sales.specs.State.{state_of};
ghost use Rattle.sales.specs.Questions.{OfMarket, OfSeat, OfNumber};

use crate::sale::Sale;
use books::StepBook;
use rules::{Account, SaleFault};
use sale_parts::outside;
use sheets::PhaseSheet;
use std::alloc::{AllocError, Global};
use steps::{Step, StepRecord};
use sums::{shares_standing, shares_won, shares_won_by_in, standing_weight};
use winners::winners;

impl<S: PhaseSheet + Drop, B: StepBook + Drop> Sale<S, B> {
    /// The shares on offer in each market.
    pub fn lots(&self) -> u8
        ensures { result ≡ (state_of S.PhaseSheet B.StepBook self.now).lots }
    {
        self.parts.ledger.lots
    }

    /// The number of the round that is open, or of the last one; 0 before the first.
    pub fn round(&self) -> u64
        ensures { result ≡ (state_of S.PhaseSheet B.StepBook self.now).round }
    {
        self.parts.ledger.round
    }

    /// Whether a round is open.
    pub fn is_open(&self) -> bool
        ensures { result ≡ (state_of S.PhaseSheet B.StepBook self.now).opened }
    {
        self.parts.ledger.opened
    }

    /// Whether the sale has ended, or hasn't started.
    pub fn has_ended(&self) -> bool
        ensures { result ≡ (state_of S.PhaseSheet B.StepBook self.now).ended }
    {
        self.parts.ledger.ended
    }

    /// How many markets the sale has, numbered from 1.
    pub fn market_count(&self) -> u8
        ensures { result ≡ (state_of S.PhaseSheet B.StepBook self.now).figures.markets }
    {
        self.parts.sheet.market_count()
    }

    /// How many seats the sale has, numbered from 1.
    pub fn seat_count(&self) -> usize
        ensures { result ≡ length (state_of S.PhaseSheet B.StepBook self.now).accounts }
    {
        self.parts.ledger.seats.count()
    }

    // The place of a market in the sale's tables, or a refusal where the sale has no such market.
    fn place_of(&self, market: u8) -> Result<usize, SaleFault>
        ensures { MatchResult result (λ place. (is_outside market (state_of S.PhaseSheet B.StepBook self.now).figures.markets ≡ false) × (place ≡ market - 1) × (place < 7)) (λ f. (is_outside market (state_of S.PhaseSheet B.StepBook self.now).figures.markets ≡ true) × (f ≡ NoMarket)) }
    {
        if outside(market as usize, self.parts.sheet.market_count() as usize) {
            return Err(SaleFault::NoMarket);
        }
        Ok(market as usize - 1)
    }

    /// By how much a raise must pass the clearing discount of the market. It refuses 13.
    pub fn increment(&self, market: u8) -> Result<u16, SaleFault>
        ensures { OfMarket (state_of S.PhaseSheet B.StepBook self.now) market (increment (state_of S.PhaseSheet B.StepBook self.now) market) result }
    {
        let place = self.place_of(market)?;
        Ok(self.parts.ledger.increments[place])
    }

    /// The clearing discount of the market at the last closing, or none. It refuses 13.
    pub fn clearing(&self, market: u8) -> Result<Option<u16>, SaleFault>
        ensures { OfMarket (state_of S.PhaseSheet B.StepBook self.now) market (clearing_at (state_of S.PhaseSheet B.StepBook self.now) market) result }
    {
        let place = self.place_of(market)?;
        Ok(self.parts.ledger.clearing[place])
    }

    /// The seat's eligibility, bought and now. It refuses 12.
    pub fn account(&self, seat: u8) -> Result<Account, SaleFault>
        ensures { OfSeat (state_of S.PhaseSheet B.StepBook self.now) seat (account (state_of S.PhaseSheet B.StepBook self.now) (seat - 1)) result }
    {
        self.parts
            .ledger
            .seats
            .account(seat)
            .ok_or(SaleFault::NoSeat)
    }

    /// The step of that number. It refuses 2.
    pub fn step(&self, number: u16) -> Result<Step, SaleFault>
        ensures { OfNumber (state_of S.PhaseSheet B.StepBook self.now) number result }
    {
        Ok(self.parts.book.read(number)?)
    }

    /// The standing shares of all steps, losing ones among them.
    pub fn standing_shares(&self) -> u32
        ensures { result ≡ total standing_of (state_of S.PhaseSheet B.StepBook self.now).steps }
    {
        shares_standing(&self.parts.book)
    }

    /// The standing shares of the seat, each times its market's weight.
    pub fn standing_weight(&self, seat: u8) -> u32
        ensures { result ≡ standing_weight (state_of S.PhaseSheet B.StepBook self.now) seat }
    {
        standing_weight(&self.parts.sheet, &self.parts.book, seat)
    }

    /// The shares won in all markets.
    pub fn shares_won(&self) -> u32
        ensures { result ≡ won_in (state_of S.PhaseSheet B.StepBook self.now) }
    {
        shares_won(&self.parts.book)
    }

    /// The shares that the seat has won in the market.
    pub fn shares_won_by(&self, seat: u8, market: u8) -> u32
        ensures { result ≡ of_both bid_of won seat market (state_of S.PhaseSheet B.StepBook self.now).steps }
    {
        shares_won_by_in(&self.parts.book, seat, market)
    }

    /// The market's winning steps, in rank.
    pub fn winners(&self, heap: Global, market: u8) -> Result<Vec<StepRecord>, AllocError>
        ensures { IfOk result (λ v. v.items ≡ winning market (state_of S.PhaseSheet B.StepBook self.now).steps) }
    {
        winners(heap, &self.parts.book, market)
    }
}
