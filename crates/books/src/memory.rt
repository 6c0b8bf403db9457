//! Where a book keeps its steps.
ghost use Rattle.std.specs.Prelude.{◌≡◌, ◌+◌, ◌<◌, List, length, slice_set};
ghost use Rattle.steps.specs.declared.record.StepRecord.{StepRecord};
ghost use Rattle.books.specs.Frames.{Frame};
ghost use Rattle.books.specs.Lawful.{Lawful};
ghost use Rattle.books.specs.Memory.{append_reply, append_after};

use steps::{BookFault, Step, StepRecord};

/// A list of the records of steps, each at the place before its number, that grows up to a size.
pub(crate) trait StepMemory {
    ghost frame: { Self → Frame };

    ghost steps: { Self → List StepRecord };

    ghost lawful: { (m : Self) → Lawful (frame m).size (steps m) };

    /// How many records there can be.
    fn size(&self) -> usize
        ensures { result ≡ (frame self.now).size };

    /// The records.
    fn records(&self) -> &[StepRecord]
        ensures { result.now ≡ steps self.now };

    /// Writes the next step behind the last one, or refuses where the memory is full.
    fn append(&mut self, step: Step) -> Result<(), BookFault>
        requires { step.stored.bid.number ≡ length (steps self.old) + 1 }
        ensures frame { frame self.new ≡ frame self.old }
        ensures reply { result ≡ append_reply (frame self.old).size (steps self.old) }
        ensures after { steps self.new ≡ append_after (frame self.old).size (steps self.old) step.stored };

    /// Writes a step over the one of its number.
    fn replace(&mut self, place: usize, step: Step)
        requires within { place < length (steps self.old) }
        requires number { step.stored.bid.number ≡ place + 1 }
        ensures frame { frame self.new ≡ frame self.old }
        ensures after { steps self.new ≡ slice_set (steps self.old) place step.stored };
}
