//! A book over any memory of steps.
ghost use Rattle.std.specs.Prelude.{◌≡◌, ◌+◌, ◌≤◌, true, false, List, length, MatchResult};
ghost use Rattle.steps.specs.declared.record.StepRecord.{StepRecord as Record};
ghost use Rattle.steps.specs.declared.fault.BookFault.TheVariants.{NoStep};
ghost use Rattle.books.specs.Replies.{entered, held, at, ReadReply};

use crate::book::{StepBook, place_of};
use crate::memory::StepMemory;
use offers::NewStep;
use ranks::next_in_order;
use steps::{Bid, BookFault, Shares, Step, StepRecord};

// The record of a new step: all its shares stand.
fn entered(number: u16, step: NewStep) -> StepRecord
    ensures { (steps : List Record) → number ≡ length steps + 1 → result ≡ entered steps step }
{
    StepRecord {
        bid: Bid {
            number,
            seat: step.seat,
            market: step.market,
            discount: step.discount,
            stamp: step.stamp,
        },
        shares: Shares {
            standing: step.shares,
            losing: 0,
            rejected: 0,
        },
    }
}

// How many steps there are.
fn len<M: StepMemory>(memory: &M) -> usize
    ensures steps { result ≡ length (M.StepMemory.steps memory.now) }
    ensures most { result ≤ 1024 }
{
    memory.records().len()
}

// The record of the step of that number.
fn record_of<M: StepMemory>(memory: &M, number: u16) -> Result<StepRecord, BookFault>
    ensures { MatchResult result (λ x. (held (M.StepMemory.steps memory.now) number ≡ true) × (x ≡ at (M.StepMemory.steps memory.now) number)) (λ f. (held (M.StepMemory.steps memory.now) number ≡ false) × (f ≡ NoStep)) }
{
    let place = place_of(number).ok_or(BookFault::NoStep)?;
    memory
        .records()
        .get(place)
        .copied()
        .ok_or(BookFault::NoStep)
}

// The step of that number. A record that is held keeps the rule, which is proved: `unwrap` tests nothing.
fn step_of<M: StepMemory>(memory: &M, number: u16) -> Result<Step, BookFault>
    ensures { ReadReply (M.StepMemory.steps memory.now) number result }
{
    let record = record_of(memory, number)?;
    Ok(Step::try_from(record).unwrap())
}

impl<M: StepMemory> StepBook for M {
    ghost frame = { M.StepMemory.frame };

    ghost steps = { M.StepMemory.steps };

    ghost lawful = { M.StepMemory.lawful };

    fn count(&self) -> (u16, u16) {
        (len(self) as u16, self.size() as u16)
    }

    fn put(&mut self, step: NewStep) -> Result<u16, BookFault> {
        let number = len(self) as u16 + 1;
        let new = Step::try_from(entered(number, step))?;
        self.append(new)?;
        Ok(number)
    }

    fn read(&self, number: u16) -> Result<Step, BookFault> {
        step_of(self, number)
    }

    fn set(&mut self, number: u16, shares: Shares) -> Result<(), BookFault> {
        let old = record_of(self, number)?;
        if !shares.keep_rule() {
            return Err(BookFault::BadStep);
        }
        // The bid keeps the rule as before, which is proved: `unwrap` tests nothing.
        let new = Step::try_from(StepRecord { shares, ..old }).unwrap();
        self.replace(number as usize - 1, new);
        Ok(())
    }

    fn next(&self, market: u8, number: u16) -> Result<Option<u16>, BookFault> {
        if number as usize > len(self) {
            return Err(BookFault::NoStep);
        }
        let place = next_in_order(self.records(), market, place_of(number));
        Ok(place.map(|place| place as u16 + 1))
    }
}
