//! Why a book refuses.
ghost use Rattle.std.specs.Prelude.{◌≡◌};
ghost use Rattle.faults.specs.declared.layer.Layer.TheVariants.{Book as BookLayer};
ghost use Rattle.steps.specs.Faults.{fault_number};

use faults::Layer;

/// A refusal of a book, which has changed nothing.
#[derive(Clone, Copy, PartialEq, Eq, Debug)]
pub enum BookFault {
    /// The book has as many steps as it can hold.
    Full = 1,
    /// There is no step of that number.
    NoStep = 2,
    /// The market, the discount or the shares break the step's rule.
    BadStep = 3,
}

impl BookFault {
    /// The number that the refusal is printed under.
    pub fn number(self) -> u8
        ensures { result ≡ fault_number self }
    {
        self as u8
    }

    /// The layer of every refusal of a book.
    pub fn layer(self) -> Layer
        ensures { result ≡ BookLayer }
    {
        Layer::Book
    }
}
