//! Code over any book, which knows it by its size and its steps, and a lender, which knows its records again.
ghost use Rattle.std.specs.Prelude.{◌≡◌, ◌-◌, min, [], length, take, drop, IfOk};
ghost use Rattle.books.specs.Replies.{entered, put_after};

use books::{FlatBook, StepBook};
use offers::NewStep;
use steps::{BookFault, Step, StepRecord};

/// How many steps more the book takes.
pub(crate) fn left<B: StepBook>(book: &B) -> u16
    ensures { result ≡ (B.StepBook.frame book.now).size - length (B.StepBook.steps book.now) }
{
    let (count, size) = book.count();
    size - count
}

/// Enters a step and reads it back.
pub(crate) fn enter<B: StepBook>(book: &mut B, seat: u8, market: u8) -> Result<Step, BookFault>
    ensures after { B.StepBook.steps book.new ≡ put_after (B.StepBook.frame book.old).size (B.StepBook.steps book.old) (entered (B.StepBook.steps book.old) (record { seat = seat; market = market; shares = 50; discount = 100; stamp = 7 })) }
    ensures reply { IfOk result (λ step. step.stored ≡ entered (B.StepBook.steps book.old) (record { seat = seat; market = market; shares = 50; discount = 100; stamp = 7 })) }
{
    let number = book.put(NewStep {
        seat,
        market,
        shares: 50,
        discount: 100,
        stamp: 7,
    })?;
    book.read(number)
}

/// What two books with the same steps answer for the next one: the same.
pub(crate) fn next_in_both<B: StepBook, C: StepBook>(
    one: &B,
    other: &C,
    market: u8,
    number: u16,
) -> (
    Result<Option<u16>, BookFault>,
    Result<Option<u16>, BookFault>,
)
    requires { B.StepBook.steps one.now ≡ C.StepBook.steps other.now }
    ensures { result.0 ≡ result.1 }
{
    (one.next(market, number), other.next(market, number))
}

/// Enters one step into lent records, which hold it afterwards; those past the 1,024th are as they were.
pub(crate) fn lend(records: &mut [StepRecord], seat: u8, market: u8)
    ensures steps { take (length (put_after (min (length records.old) 1024) [] (entered [] (record { seat = seat; market = market; shares = 50; discount = 100; stamp = 7 })))) records.new ≡ put_after (min (length records.old) 1024) [] (entered [] (record { seat = seat; market = market; shares = 50; discount = 100; stamp = 7 })) }
    ensures beyond { drop (min (length records.old) 1024) records.new ≡ drop (min (length records.old) 1024) records.old }
{
    let mut book = FlatBook::new(records);
    let _ = book.put(NewStep {
        seat,
        market,
        shares: 50,
        discount: 100,
        stamp: 7,
    });
}
