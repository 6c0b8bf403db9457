//! Why a call of a sale is refused.
ghost use Rattle.std.specs.Prelude.{◌≡◌};
ghost use Rattle.rules.specs.Faults.{sale_number, sale_layer, sale_place};
ghost use Rattle.rules.specs.declared.fault.SaleFault.TheVariants.{Book as OfBook};

use faults::Layer;
use steps::BookFault;

/// A refusal of a sale, which has changed nothing. A book's refusal is carried whole.
#[derive(Clone, Copy, PartialEq, Eq, Debug)]
pub enum SaleFault {
    Book(BookFault),
    /// This many deposits: none, or over 24.
    SeatCount(usize),
    /// The deposit of this seat is over 20,000,000 dollars.
    DepositSize(usize),
    /// The sale has a seat, or its book a step.
    Taken,
    SaleEnded,
    /// A round is open.
    RoundOpen,
    /// The row has not one increment for each market.
    RowLength,
    /// An increment is over 1,000.
    IncrementSize,
    /// No round is open.
    RoundShut,
    NoSeat,
    NoMarket,
    /// The shares of a new step are not 1 to 100.
    ShareCount,
    /// The discount is over 10,000.
    DiscountSize,
    /// The stamp is below the last accepted one.
    StampBehind,
    /// The opening rounds, in which steps are entered, are over.
    EntryOver,
    /// The seat's standing shares, weighted, would exceed its eligibility.
    NotEligible,
    /// The step is another seat's.
    OtherSeat,
    /// A raise of no shares, or of more than stand.
    RaiseShares,
    /// The market had no clearing discount at the last closing.
    NoClearing,
    /// The discount is below the clearing discount plus the increment, or not above the step's own.
    LowRaise,
    /// The first sale has not ended.
    FirstGoing,
    /// The first sale's sheet has several markets.
    FirstMarkets,
    /// The first sale left nothing unsold.
    NothingLeft,
}

impl From<BookFault> for SaleFault {
    ghost from_gives = { λ fault r. r ≡ OfBook fault };

    fn from(refusal: BookFault) -> SaleFault {
        SaleFault::Book(refusal)
    }
}

impl SaleFault {
    /// The number that the refusal is printed under.
    pub fn number(self) -> u8
        ensures { result ≡ sale_number self }
    {
        match self {
            SaleFault::Book(fault) => fault.number(),
            SaleFault::SeatCount(_) => 4,
            SaleFault::DepositSize(_) => 5,
            SaleFault::Taken => 6,
            SaleFault::SaleEnded => 7,
            SaleFault::RoundOpen => 8,
            SaleFault::RowLength => 9,
            SaleFault::IncrementSize => 10,
            SaleFault::RoundShut => 11,
            SaleFault::NoSeat => 12,
            SaleFault::NoMarket => 13,
            SaleFault::ShareCount => 14,
            SaleFault::DiscountSize => 15,
            SaleFault::StampBehind => 16,
            SaleFault::EntryOver => 17,
            SaleFault::NotEligible => 18,
            SaleFault::OtherSeat => 19,
            SaleFault::RaiseShares => 20,
            SaleFault::NoClearing => 21,
            SaleFault::LowRaise => 22,
            SaleFault::FirstGoing => 23,
            SaleFault::FirstMarkets => 24,
            SaleFault::NothingLeft => 25,
        }
    }

    /// The layer that the refusal comes from.
    pub fn layer(self) -> Layer
        ensures { result ≡ sale_layer self }
    {
        match self {
            SaleFault::Book(fault) => fault.layer(),
            _ => Layer::Sale,
        }
    }

    /// The number of deposits, or the seat, where the refusal is of a start; a session tells the others by their event.
    pub fn place(self) -> usize
        ensures { result ≡ sale_place self }
    {
        match self {
            SaleFault::SeatCount(count) => count,
            SaleFault::DepositSize(seat) => seat,
            _ => 0,
        }
    }
}
