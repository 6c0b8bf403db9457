//! What a sale knows of its phase.
ghost use Rattle.std.specs.Prelude.{◌≡◌};
ghost use Rattle.sheets.specs.Figures.{Figures, Lawful};

/// The figures of a phase. The numbers of markets and of opening rounds belong to the kind of sheet, and two methods answer
/// them. Each sheet writes both: bodies here would need a law that ties the figures to the constants, which asks more of it.
pub trait PhaseSheet {
    const MARKETS: u8;

    const OPENING_ROUNDS: u8;

    ghost figures: { Self → Figures };

    /// How many markets there are, numbered from 1.
    fn market_count(&self) -> u8
        ensures { result ≡ (figures self.now).markets };

    /// How many opening rounds there are.
    fn opening_count(&self) -> u8
        ensures { result ≡ (figures self.now).openings };

    /// The percent of its eligibility that a seat owes as activity in the round.
    fn percent(&self, round: u64) -> u8
        ensures { result ≡ (figures self.now).percent round };

    /// What a share in the market weighs.
    fn weight(&self, market: u8) -> u16
        ensures { result ≡ (figures self.now).weight market };

    ghost lawful: { (s : Self) → Lawful (figures s) };
}
