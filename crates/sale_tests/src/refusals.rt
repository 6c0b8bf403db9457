//! Each refusal of a call, in the order of its tests, over any book of three places; and a third sheet.
use crate::sheet::TwoMarkets;
use books::{FlatBook, StepBook, VecBook};
use offers::{NewStep, Raise};
use rules::{Account, Answer, SaleFault};
use sales::Sale;
use sheets::{FullTerm, PhaseSheet, SingleYear};
use std::process::Abort;
use std::test::Fail;
use steps::{Bid, BookFault, Shares, StepRecord};

const UNUSED: StepRecord = StepRecord {
    bid: Bid {
        number: 0,
        seat: 0,
        market: 0,
        discount: 0,
        stamp: 0,
    },
    shares: Shares {
        standing: 0,
        losing: 0,
        rejected: 0,
    },
};

fn offer(seat: u8, market: u8, shares: u8, discount: u16, stamp: u64) -> NewStep {
    NewStep {
        seat,
        market,
        shares,
        discount,
        stamp,
    }
}

fn raise(seat: u8, step: u16, shares: u8, discount: u16, stamp: u64) -> Raise {
    Raise {
        seat,
        step,
        shares,
        discount,
        stamp,
    }
}

fn starts<B: StepBook + Drop>(rt: &impl Abort, book: B) {
    let mut sale = Sale::new(SingleYear, book);
    assert_eq!(rt; sale.start(&[]), Err(SaleFault::SeatCount(0)));
    assert_eq!(rt;
        sale.start(&[20_000_001; 25]),
        Err(SaleFault::SeatCount(25))
    );
    assert_eq!(rt;
        sale.start(&[20_000_000, 20_000_001, 20_000_002]),
        Err(SaleFault::DepositSize(2))
    );
    assert_eq!(rt; sale.open(&[0; 7]), Err(SaleFault::SaleEnded));
    assert_eq!(rt; sale.start(&[20_000_000; 24]), Ok(Answer::Told(100)));
    assert_eq!(rt; sale.start(&[1]), Err(SaleFault::Taken));
}

fn opens<B: StepBook + Drop>(rt: &impl Abort, book: B) {
    let mut sale = Sale::new(SingleYear, book);
    assert_eq!(rt; sale.start(&[50_000]), Ok(Answer::Told(100)));
    assert_eq!(rt; sale.open(&[1_001; 6]), Err(SaleFault::RowLength));
    assert_eq!(rt; sale.open(&[0; 8]), Err(SaleFault::RowLength));
    assert_eq!(rt; sale.open(&[1_001; 7]), Err(SaleFault::IncrementSize));
    assert_eq!(rt; sale.close(), Err(SaleFault::RoundShut));
    assert_eq!(rt; sale.open(&[1_000; 7]), Ok(Answer::Told(1)));
    assert_eq!(rt; sale.open(&[]), Err(SaleFault::RoundOpen));
    assert_eq!(rt; sale.increment(7), Ok(1_000));
    assert_eq!(rt; sale.increment(8), Err(SaleFault::NoMarket));
}

fn enters<B: StepBook + Drop>(rt: &impl Abort, book: B) {
    let mut sale = Sale::new(SingleYear, book);
    assert_eq!(rt; sale.start(&[20_000_000, 50_000]), Ok(Answer::Told(100)));
    assert_eq!(rt;
        sale.enter(offer(0, 0, 0, 10_001, 0)),
        Err(SaleFault::RoundShut)
    );
    assert_eq!(rt; sale.open(&[0; 7]), Ok(Answer::Told(1)));
    assert_eq!(rt;
        sale.enter(offer(1, 7, 100, 10_000, 5)),
        Ok(Answer::Told(1))
    );
    assert_eq!(rt;
        sale.enter(offer(3, 0, 0, 10_001, 4)),
        Err(SaleFault::NoSeat)
    );
    assert_eq!(rt;
        sale.enter(offer(2, 8, 0, 10_001, 4)),
        Err(SaleFault::NoMarket)
    );
    assert_eq!(rt;
        sale.enter(offer(2, 7, 101, 10_001, 4)),
        Err(SaleFault::ShareCount)
    );
    assert_eq!(rt;
        sale.enter(offer(2, 7, 100, 10_001, 4)),
        Err(SaleFault::DiscountSize)
    );
    assert_eq!(rt;
        sale.enter(offer(2, 7, 100, 10_000, 4)),
        Err(SaleFault::StampBehind)
    );
    assert_eq!(rt;
        sale.enter(offer(2, 1, 2, 0, 5)),
        Err(SaleFault::NotEligible)
    );
    assert_eq!(rt; sale.enter(offer(2, 1, 1, 0, 5)), Ok(Answer::Told(2)));
    fills(rt, &mut sale);
}

// The third place of the book is the last.
fn fills<S: PhaseSheet + Drop, B: StepBook + Drop>(rt: &impl Abort, sale: &mut Sale<S, B>) {
    assert_eq!(rt; sale.enter(offer(1, 1, 1, 0, 5)), Ok(Answer::Told(3)));
    assert_eq!(rt;
        sale.enter(offer(2, 1, 1, 0, 5)),
        Err(SaleFault::NotEligible),
        "before a full book"
    );
    assert_eq!(rt;
        sale.enter(offer(1, 1, 1, 0, 5)),
        Err(SaleFault::Book(BookFault::Full))
    );
    assert_eq!(rt;
        sale.raise(raise(1, 3, 1, 10_000, 5)),
        Err(SaleFault::NoClearing)
    );
}

fn raises<B: StepBook + Drop>(rt: &impl Abort, book: B) {
    let mut sale = Sale::new(FullTerm, book);
    assert_eq!(rt;
        sale.start(&[12_000_000, 12_000_000]),
        Ok(Answer::Told(100))
    );
    assert_eq!(rt; sale.open(&[100]), Ok(Answer::Told(1)));
    assert_eq!(rt; sale.enter(offer(1, 1, 60, 400, 5)), Ok(Answer::Told(1)));
    assert_eq!(rt; sale.enter(offer(2, 1, 60, 300, 6)), Ok(Answer::Told(2)));
    assert_eq!(rt;
        sale.close(),
        Ok(Answer::Closed {
            rejected: 0,
            ended: false
        })
    );
    assert_eq!(rt;
        sale.raise(raise(3, 0, 0, 10_001, 5)),
        Err(SaleFault::RoundShut)
    );
    assert_eq!(rt; sale.open(&[100]), Ok(Answer::Told(2)));
    assert_eq!(rt; sale.enter(offer(1, 1, 1, 0, 6)), Err(SaleFault::EntryOver));
    raises_in_order(rt, &mut sale);
    raises_low(rt, &mut sale);
}

// What is wrong with a raise from the first test on, mended one by one.
fn raises_in_order<S: PhaseSheet + Drop, B: StepBook + Drop>(
    rt: &impl Abort,
    sale: &mut Sale<S, B>,
) {
    assert_eq!(rt;
        sale.raise(raise(3, 3, 0, 10_001, 5)),
        Err(SaleFault::NoSeat)
    );
    assert_eq!(rt;
        sale.raise(raise(1, 0, 0, 10_001, 5)),
        Err(SaleFault::Book(BookFault::NoStep))
    );
    assert_eq!(rt;
        sale.raise(raise(1, 3, 0, 10_001, 5)),
        Err(SaleFault::Book(BookFault::NoStep))
    );
    assert_eq!(rt;
        sale.raise(raise(1, 2, 0, 10_001, 5)),
        Err(SaleFault::OtherSeat)
    );
    assert_eq!(rt;
        sale.raise(raise(2, 2, 0, 10_001, 5)),
        Err(SaleFault::RaiseShares)
    );
    assert_eq!(rt;
        sale.raise(raise(2, 2, 61, 10_001, 5)),
        Err(SaleFault::RaiseShares)
    );
    assert_eq!(rt;
        sale.raise(raise(2, 2, 60, 10_001, 5)),
        Err(SaleFault::DiscountSize)
    );
    assert_eq!(rt;
        sale.raise(raise(2, 2, 60, 10_000, 5)),
        Err(SaleFault::StampBehind)
    );
}

// At clearing plus increment a raise passes, one hundredth below it does not; nor does one to the step's own discount.
fn raises_low<S: PhaseSheet + Drop, B: StepBook + Drop>(rt: &impl Abort, sale: &mut Sale<S, B>) {
    assert_eq!(rt;
        sale.raise(raise(2, 2, 30, 399, 6)),
        Err(SaleFault::LowRaise)
    );
    assert_eq!(rt;
        sale.raise(raise(1, 1, 60, 400, 6)),
        Err(SaleFault::LowRaise)
    );
    assert_eq!(rt; sale.raise(raise(2, 2, 30, 400, 6)), Ok(Answer::Told(3)));
    assert_eq!(rt;
        sale.raise(raise(2, 2, 31, 400, 6)),
        Err(SaleFault::RaiseShares)
    );
    assert_eq!(rt;
        sale.raise(raise(2, 2, 30, 400, 6)),
        Err(SaleFault::Book(BookFault::Full))
    );
    assert_eq!(rt;
        sale.raise(raise(2, 3, 1, 400, 5)),
        Err(SaleFault::StampBehind)
    );
}

fn changes<B: StepBook + Drop, C: StepBook + Drop>(rt: &impl Abort, one: B, other: C) {
    let mut first = Sale::new(FullTerm, one);
    let mut second = Sale::new(SingleYear, other);
    assert_eq!(rt;
        second.changeover(&first),
        Err(SaleFault::NothingLeft),
        "no lots"
    );
    assert_eq!(rt; first.start(&[16_000_000]), Ok(Answer::Told(100)));
    assert_eq!(rt; second.changeover(&first), Err(SaleFault::FirstGoing));
    assert_eq!(rt; first.open(&[0]), Ok(Answer::Told(1)));
    assert_eq!(rt; first.enter(offer(1, 1, 60, 0, 0)), Ok(Answer::Told(1)));
    assert_eq!(rt;
        first.close(),
        Ok(Answer::Closed {
            rejected: 0,
            ended: false
        })
    );
    assert_eq!(rt; first.open(&[0]), Ok(Answer::Told(2)));
    assert_eq!(rt;
        first.close(),
        Ok(Answer::Closed {
            rejected: 0,
            ended: true
        })
    );
    assert_eq!(rt; first.changeover(&second), Err(SaleFault::FirstMarkets));
    assert_eq!(rt; second.changeover(&first), Ok(Answer::Told(40)));
    assert_eq!(rt; second.changeover(&first), Err(SaleFault::Taken));
}

// A sale knows a sheet by its figures: two markets, and half of the eligibility owed in the first round.
fn owes_half<B: StepBook + Drop>(rt: &impl Abort, book: B) {
    let mut sale = Sale::new(TwoMarkets, book);
    assert_eq!(rt; sale.start(&[1_000_000]), Ok(Answer::Told(100)));
    assert_eq!(rt; sale.open(&[0; 7]), Err(SaleFault::RowLength));
    assert_eq!(rt; sale.open(&[0; 2]), Ok(Answer::Told(1)));
    assert_eq!(rt; sale.enter(offer(1, 3, 1, 0, 0)), Err(SaleFault::NoMarket));
    assert_eq!(rt; sale.enter(offer(1, 1, 1, 0, 0)), Ok(Answer::Told(1)));
    assert_eq!(rt;
        sale.close(),
        Ok(Answer::Closed {
            rejected: 0,
            ended: false
        })
    );
    assert_eq!(rt;
        sale.account(1),
        Ok(Account {
            bought: 2_000,
            eligible: 1_400
        })
    );
}

#[test]
fn refusals_over_a_flat_book(rt: HostRuntime) {
    starts(&rt, FlatBook::new(&mut [UNUSED; 3]));
    opens(&rt, FlatBook::new(&mut [UNUSED; 3]));
    enters(&rt, FlatBook::new(&mut [UNUSED; 3]));
    raises(&rt, FlatBook::new(&mut [UNUSED; 3]));
    owes_half(&rt, FlatBook::new(&mut [UNUSED; 3]));
    changes(
        &rt,
        FlatBook::new(&mut [UNUSED; 3]),
        FlatBook::new(&mut [UNUSED; 3]),
    );
}

#[test]
fn refusals_over_a_vector(rt: HostRuntime) -> Result<(), Fail> {
    starts(&rt, VecBook::new(rt.alloc(), 3)?);
    opens(&rt, VecBook::new(rt.alloc(), 3)?);
    enters(&rt, VecBook::new(rt.alloc(), 3)?);
    raises(&rt, VecBook::new(rt.alloc(), 3)?);
    owes_half(&rt, VecBook::new(rt.alloc(), 3)?);
    changes(
        &rt,
        VecBook::new(rt.alloc(), 3)?,
        VecBook::new(rt.alloc(), 3)?,
    );
    Ok(())
}
