//! The memory of a flat book.
ghost use Rattle.std.specs.Prelude.{◌≡◌, []};
ghost use Rattle.books.specs.Flat.{flat_frame, flat_steps, flat_lent, flat_lawful};

use crate::book::MOST_STEPS;
use crate::flat::FlatBook;
use crate::memory::StepMemory;
use steps::{BookFault, Step, StepRecord};

impl<'a> FlatBook<'a> {
    /// An empty book over the records, of which it uses 1,024 at most.
    pub fn new(records: &'a mut [StepRecord]) -> FlatBook<'a>
        ensures lent { flat_lent result ≡ records.entry.ghost_name }
        ensures same { result.records.now ≡ records.old }
        ensures empty { flat_steps result ≡ [] }
    {
        FlatBook { records, count: 0 }
    }
}

impl<'a> StepMemory for FlatBook<'a> {
    ghost frame = { flat_frame };

    ghost steps = { flat_steps };

    ghost lawful = { flat_lawful };

    fn size(&self) -> usize {
        self.records.len().min(MOST_STEPS)
    }

    fn records(&self) -> &[StepRecord] {
        &self.records[..self.count]
    }

    fn append(&mut self, step: Step) -> Result<(), BookFault> {
        if self.count == self.size() {
            return Err(BookFault::Full);
        }
        self.records[self.count] = step.stored();
        self.count += 1;
        Ok(())
    }

    fn replace(&mut self, place: usize, step: Step) {
        self.records[place] = step.stored();
    }
}
