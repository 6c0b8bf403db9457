//! The same cases on a flat book and on a book of its own memory, and the edges of a lent slice.
use crate::callers::{enter, left, lend, next_in_both};
use books::{FlatBook, StepBook, VecBook};
use offers::NewStep;
use std::process::Abort;
use std::test::Fail;
use steps::{Bid, BookFault, Shares, StepRecord};

const UNUSED: StepRecord = StepRecord {
    bid: Bid {
        number: 9,
        seat: 9,
        market: 9,
        discount: 9,
        stamp: 9,
    },
    shares: Shares {
        standing: 9,
        losing: 9,
        rejected: 9,
    },
};

fn offer(seat: u8, market: u8, discount: u16, stamp: u64, shares: u8) -> NewStep {
    NewStep {
        seat,
        market,
        shares,
        discount,
        stamp,
    }
}

fn shares(standing: u8, losing: u8, rejected: u8) -> Shares {
    Shares {
        standing,
        losing,
        rejected,
    }
}

// Four steps in market 1 that tie in discount, in stamp and in both, and one in market 2.
fn rank<B: StepBook>(rt: &impl Abort, book: &mut B) {
    assert_eq!(rt; book.put(offer(1, 1, 500, 10, 10)), Ok(1));
    assert_eq!(rt;
        book.put(offer(2, 1, 600, 10, 10)),
        Ok(2),
        "ties in the stamp"
    );
    assert_eq!(rt; book.put(offer(3, 1, 500, 10, 10)), Ok(3), "ties in both");
    assert_eq!(rt;
        book.put(offer(4, 1, 500, 9, 10)),
        Ok(4),
        "ties in the discount"
    );
    assert_eq!(rt; book.put(offer(5, 2, 550, 8, 10)), Ok(5));
    assert_eq!(rt; book.next(1, 0), Ok(Some(2)));
    assert_eq!(rt; book.next(1, 2), Ok(Some(4)));
    assert_eq!(rt; book.next(1, 4), Ok(Some(1)));
    assert_eq!(rt; book.next(1, 1), Ok(Some(3)));
    assert_eq!(rt; book.next(1, 3), Ok(None));
}

// After `rank`: next behind a step of another market, and where there is none.
fn other_markets<B: StepBook>(rt: &impl Abort, book: &B) {
    assert_eq!(rt; book.next(2, 0), Ok(Some(5)));
    assert_eq!(rt;
        book.next(2, 2),
        Ok(Some(5)),
        "behind a better step of market 1"
    );
    assert_eq!(rt;
        book.next(2, 4),
        Ok(None),
        "behind a worse step of market 1"
    );
    assert_eq!(rt; book.next(1, 5), Ok(Some(4)), "behind the step of market 2");
    assert_eq!(rt; book.next(3, 0), Ok(None), "in an empty market");
    assert_eq!(rt; book.next(1, 6), Err(BookFault::NoStep));
}

// In an empty book of two places.
fn fill<B: StepBook>(rt: &impl Abort, book: &mut B) -> Result<(), Fail> {
    assert_eq!(rt; book.next(1, 0), Ok(None), "0 is never refused");
    assert_eq!(rt; book.put(offer(1, 0, 0, 0, 0)), Err(BookFault::BadStep));
    assert_eq!(rt; book.put(offer(1, 7, 10_000, 1, 100)), Ok(1));
    assert_eq!(rt;
        book.put(offer(1, 8, 10_000, 1, 100)),
        Err(BookFault::BadStep)
    );
    assert_eq!(rt;
        book.put(offer(1, 7, 10_001, 1, 100)),
        Err(BookFault::BadStep)
    );
    assert_eq!(rt; left(book), 1);
    assert_eq!(rt; enter(book, 2, 1)?.stored().bid.seat, 2, "the last place");
    assert_eq!(rt;
        book.put(offer(1, 1, 0, 0, 0)),
        Err(BookFault::Full),
        "past it"
    );
    assert_eq!(rt;
        book.put(offer(1, 1, 0, 0, 101)),
        Err(BookFault::BadStep),
        "the rule comes first"
    );
    assert_eq!(rt; book.count(), (2, 2));
    Ok(())
}

// After `fill`: share figures at the edges of the rule.
fn reshare<B: StepBook>(rt: &impl Abort, book: &mut B) -> Result<(), Fail> {
    assert_eq!(rt; book.set(1, shares(60, 60, 40)), Ok(()));
    assert_eq!(rt; book.set(1, shares(60, 61, 40)), Err(BookFault::BadStep));
    assert_eq!(rt; book.set(1, shares(60, 0, 41)), Err(BookFault::BadStep));
    assert_eq!(rt; book.set(0, shares(0, 0, 0)), Err(BookFault::NoStep));
    assert_eq!(rt;
        book.set(3, shares(0, 1, 0)),
        Err(BookFault::NoStep),
        "the number comes first"
    );
    let bid = Bid {
        number: 1,
        seat: 1,
        market: 7,
        discount: 10_000,
        stamp: 1,
    };
    assert_eq!(rt;
        book.read(1)?.stored(),
        StepRecord {
            bid,
            shares: shares(60, 60, 40),
        }
    );
    assert_eq!(rt; book.read(2)?.stored().shares.standing, 50);
    assert_eq!(rt; book.read(0).err(), Some(BookFault::NoStep));
    assert_eq!(rt; book.read(3).err(), Some(BookFault::NoStep));
    Ok(())
}

#[test]
fn a_flat_book_ranks_and_refuses(rt: HostRuntime) -> Result<(), Fail> {
    let mut records = [UNUSED; 8];
    let mut ranked = FlatBook::new(&mut records);
    rank(&rt, &mut ranked);
    other_markets(&rt, &ranked);
    let mut short = [UNUSED; 2];
    let mut filled = FlatBook::new(&mut short);
    fill(&rt, &mut filled)?;
    reshare(&rt, &mut filled)
}

#[test]
fn a_book_of_its_own_memory_ranks_and_refuses(rt: HostRuntime) -> Result<(), Fail> {
    let mut ranked = VecBook::new(rt.alloc(), 8)?;
    rank(&rt, &mut ranked);
    other_markets(&rt, &ranked);
    let mut filled = VecBook::new(rt.alloc(), 2)?;
    fill(&rt, &mut filled)?;
    reshare(&rt, &mut filled)
}

#[test]
fn a_lent_slice_is_used_up_to_1024_records(rt: HostRuntime) -> Result<(), Fail> {
    let mut records = [UNUSED; 1026];
    {
        let mut book = FlatBook::new(&mut records);
        assert_eq!(rt; book.count(), (0, 1024));
        for stamp in 0..1024 {
            book.put(offer(1, 1, 100, stamp, 1))?;
        }
        assert_eq!(rt; book.put(offer(1, 1, 100, 1024, 1)), Err(BookFault::Full));
    }
    assert_eq!(rt; records[1023].bid.number, 1024);
    assert_eq!(rt; records[1024], UNUSED);
    Ok(())
}

#[test]
fn a_lender_knows_its_records_again(rt: HostRuntime) {
    let mut records = [UNUSED; 3];
    lend(&mut records, 4, 3);
    assert_eq!(rt;
        (
            records[0].bid.number,
            records[0].bid.seat,
            records[0].shares.standing,
        ),
        (1, 4, 50)
    );
    assert_eq!(rt; records[1], UNUSED);
}

#[test]
fn books_of_the_same_steps_answer_alike(rt: HostRuntime) -> Result<(), Fail> {
    let mut records = [UNUSED; 2];
    let flat = FlatBook::new(&mut records);
    let owned = VecBook::new(rt.alloc(), 4)?;
    let (one, other) = next_in_both(&flat, &owned, 1, 0);
    assert_eq!(rt; one, other);
    Ok(())
}
