//! The winning steps of a market, gathered down its rank.
ghost use Rattle.std.specs.Prelude.{◌≡◌, ◌+◌, ◌<◌, ◌≤◌, ℕ, [], ◌∷◌, ◌++◌, length, IfOk, Ok, Some, vec_len, vec_capacity, filter};
ghost use Rattle.books.specs.Replies.{NextReply};
ghost use Rattle.winners.specs.Winning.{is_winning, winning, stepped};

use books::StepBook;
use std::alloc::{AllocError, Global};
use steps::StepRecord;

/// The market's winning steps, in rank: those with more standing than losing shares.
pub fn winners<B: StepBook>(
    heap: Global,
    book: &B,
    market: u8,
) -> Result<Vec<StepRecord>, AllocError>
    ensures { IfOk result (λ v. v.items ≡ winning market (B.StepBook.steps book.now)) }
{
    let (count, _) = book.count();
    let mut found = Vec::with_capacity(heap, count as usize)?;
    gather(book, market, &mut found);
    Ok(found)
}

// Walks the market's rank from the top, and adds each winning step to those found. There is room for every step of the book,
// so that no push wants memory.
fn gather<B: StepBook>(book: &B, market: u8, found: &mut Vec<StepRecord>)
    requires { vec_len found.old + length (B.StepBook.steps book.now) ≤ vec_capacity found.old }
    ensures { found.new.items ≡ found.old.items ++ winning market (B.StepBook.steps book.now) }
{
    // the top ranks behind number 0
    let mut at: u16 = 0;
    while let Some(number) = add_next(book, market, at, found) {
        at = number;
    }
}

// Adds the market's next step behind the one of the given number if it wins, and answers its number. The book refuses neither
// the number given nor the one that it answers: each `unwrap` is proved, and tests nothing.
fn add_next<B: StepBook>(
    book: &B,
    market: u8,
    number: u16,
    found: &mut Vec<StepRecord>,
) -> Option<u16>
    requires held { number ≤ length (B.StepBook.steps book.now) }
    requires room { (next : ℕ) → NextReply (B.StepBook.steps book.now) market number (Ok (Some next)) → vec_len found.old < vec_capacity found.old }
    ensures next { NextReply (B.StepBook.steps book.now) market number (Ok result) }
    ensures items { found.new.items ≡ found.old.items ++ filter is_winning (stepped (B.StepBook.steps book.now) result) }
    ensures len { vec_len found.new ≤ vec_len found.old + 1 }
    ensures capacity { vec_capacity found.new ≡ vec_capacity found.old }
{
    let next = book.next(market, number).unwrap()?;
    add_if_winning(found, book.read(next).unwrap().stored());
    Some(next)
}

// Adds a step that wins to those found, and passes over any other.
fn add_if_winning(found: &mut Vec<StepRecord>, step: StepRecord)
    requires { vec_len found.old < vec_capacity found.old }
    ensures items { found.new.items ≡ found.old.items ++ filter is_winning (step ∷ []) }
    ensures len { vec_len found.new ≤ vec_len found.old + 1 }
    ensures capacity { vec_capacity found.new ≡ vec_capacity found.old }
{
    if wins(step) {
        found.push_reserved(step);
    }
}

// Whether a share of the step stands and isn't losing.
fn wins(step: StepRecord) -> bool
    ensures { result ≡ is_winning step }
{
    step.shares.standing > step.shares.losing
}
