//! The lots of a round, handed out down the rank of each market.
ghost use Rattle.std.specs.Prelude.{◌≡◌, ◌+◌, ◌-◌, ◌<◌, true, nat_eq, slice_set};
ghost use Rattle.books.specs.Replies.{at, held};
ghost use Rattle.rules.specs.Lists.{listed};
ghost use Rattle.rules.specs.Books.{settled, least};
ghost use Rattle.closing.specs.HandOut.{handed, gets, awarded, cleared};

use crate::held::{next_of, reshare, step_of};
use books::StepBook;
use steps::Shares;

/// Hands the lots out down the rank of each of the seven markets, and answers their clearing discounts.
pub fn hand_out<B: StepBook>(book: &mut B, lots: u8) -> [Option<u16>; 7]
    ensures frame { B.StepBook.frame book.new ≡ B.StepBook.frame book.old }
    ensures steps { B.StepBook.steps book.new ≡ settled lots (B.StepBook.steps book.old) }
    ensures clearing { result ≡ listed (λ m. least m (settled lots (B.StepBook.steps book.old))) 1 7 }
{
    let mut clearing = [None; 7];
    for (place, least) in clearing.iter_mut().enumerate() {
        *least = hand_out_market(book, market_at(place), lots);
    }
    clearing
}

// The market that has that place in a table: places count from 0, and markets from 1.
fn market_at(place: usize) -> u8
    requires { place < 7 }
    ensures { result ≡ place + 1 }
{
    place as u8 + 1
}

// Walks one market's rank from the top, and answers its clearing discount.
fn hand_out_market<B: StepBook>(book: &mut B, market: u8, lots: u8) -> Option<u16>
    ensures frame { B.StepBook.frame book.new ≡ B.StepBook.frame book.old }
    ensures steps { B.StepBook.steps book.new ≡ handed (λ b. nat_eq b.market market) lots (B.StepBook.steps book.old) }
    ensures clearing { result ≡ least market (settled lots (B.StepBook.steps book.old)) }
{
    let mut walk = Walk {
        left: lots,
        clearing: None,
    };
    // the top ranks behind number 0
    let mut at: u16 = 0;
    while let Some(number) = next_of(book, market, at) {
        walk = award_step(book, number, walk);
        at = number;
    }
    walk.clearing
}

// What a walk down a market's rank carries from step to step.
#[derive(Clone, Copy)]
struct Walk {
    // the lots that no step has got yet
    left: u8,
    // the discount of the last step that got a share
    clearing: Option<u16>,
}

// Gives the step the lesser of its standing shares and the lots left, and sets the rest losing.
fn award_step<B: StepBook>(book: &mut B, number: u16, walk: Walk) -> Walk
    requires { held (B.StepBook.steps book.old) number ≡ true }
    ensures frame { B.StepBook.frame book.new ≡ B.StepBook.frame book.old }
    ensures steps { B.StepBook.steps book.new ≡ slice_set (B.StepBook.steps book.old) (number - 1) (awarded walk.left (at (B.StepBook.steps book.old) number)) }
    ensures left { result.left ≡ walk.left - gets walk.left (at (B.StepBook.steps book.old) number) }
    ensures clearing { result.clearing ≡ cleared walk.left (at (B.StepBook.steps book.old) number) walk.clearing }
{
    let step = step_of(book, number);
    let got = step.shares.standing.min(walk.left);
    let losing = step.shares.standing - got;
    reshare(
        book,
        number,
        Shares {
            losing,
            ..step.shares
        },
    );
    let clearing = if got > 0 {
        Some(step.bid.discount)
    } else {
        walk.clearing
    };
    Walk {
        left: walk.left - got,
        clearing,
    }
}
