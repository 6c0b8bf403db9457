//! How far a sale is.
ghost use Rattle.std.specs.Prelude.{◌≡◌};
ghost use Rattle.sale_parts.specs.Stages.{is_open, has_ended};

/// How far a sale is, as one value: it begins ended, and then goes from round to round until it ends. A ledger has two flags
/// instead, since a sale's parts, which anyone may set, can be open and ended at once.
#[derive(Clone, Copy, PartialEq, Eq, Debug)]
pub enum Stage {
    /// It has ended, or hasn't started.
    Ended,
    /// No round is open.
    Shut,
    /// A round is open.
    Open,
}

impl Stage {
    /// Whether a round is open.
    pub fn is_open(self) -> bool
        ensures { result ≡ is_open self }
    {
        matches!(self, Stage::Open)
    }

    /// Whether the sale has ended, or hasn't started.
    pub fn has_ended(self) -> bool
        ensures { result ≡ has_ended self }
    {
        matches!(self, Stage::Ended)
    }
}
