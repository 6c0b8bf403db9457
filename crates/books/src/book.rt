//! What a sale asks of the book that keeps its steps.
ghost use Rattle.std.specs.Prelude.{◌≡◌, List, length};
ghost use Rattle.steps.specs.declared.record.StepRecord.{StepRecord};
ghost use Rattle.books.specs.Frames.{Frame};
ghost use Rattle.books.specs.Lawful.{Lawful};
ghost use Rattle.books.specs.Replies.{entered, put_reply, put_after, set_reply, set_after, place_of, ReadReply, NextReply};

use offers::NewStep;
use steps::{BookFault, Shares, Step, StepRecord};

/// The most steps that any book can hold.
pub const MOST_STEPS: usize = 1024;

/// A list of steps, numbered from 1 in order of entry. No call alters the book's frame: its size and, where its memory
/// is lent, the loan's name and what lies past the size, by which the lender knows the memory again.
pub trait StepBook {
    ghost frame: { Self → Frame };

    ghost steps: { Self → List StepRecord };

    ghost lawful: { (b : Self) → Lawful (frame b).size (steps b) };

    /// How many steps there are, and how many there can be.
    fn count(&self) -> (u16, u16)
        ensures { result ≡ (length (steps self.now), (frame self.now).size) };

    /// Enters a step with all its shares standing, and answers its number.
    fn put(&mut self, step: NewStep) -> Result<u16, BookFault>
        ensures frame { frame self.new ≡ frame self.old }
        ensures reply { result ≡ put_reply (frame self.old).size (steps self.old) (entered (steps self.old) step) }
        ensures after { steps self.new ≡ put_after (frame self.old).size (steps self.old) (entered (steps self.old) step) };

    /// The step of that number.
    fn read(&self, number: u16) -> Result<Step, BookFault>
        ensures { ReadReply (steps self.now) number result };

    /// Replaces the three share figures of a step.
    fn set(&mut self, number: u16, shares: Shares) -> Result<(), BookFault>
        ensures frame { frame self.new ≡ frame self.old }
        ensures reply { result ≡ set_reply (steps self.old) number shares }
        ensures after { steps self.new ≡ set_after (steps self.old) number shares };

    /// The number of the market's first step that ranks behind the one of the given number; 0, which no step has, asks for
    /// the top. It is the rule of every book here, and an option beside it would have two words for the top.
    fn next(&self, market: u8, number: u16) -> Result<Option<u16>, BookFault>
        ensures { NextReply (steps self.now) market number result };
}

/// The place of the step of that number in a list, and none for 0, behind which the top ranks.
pub fn place_of(number: u16) -> Option<usize>
    ensures { result ≡ place_of number }
{
    usize::from(number).checked_sub(1)
}
