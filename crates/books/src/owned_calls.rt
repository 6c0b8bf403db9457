//! The memory of a book that owns its records.
ghost use Rattle.std.specs.Prelude.{◌≡◌, min, [], IfOk};
ghost use Rattle.books.specs.Owned.{owned_frame, owned_size, owned_steps, owned_lawful};

use crate::book::MOST_STEPS;
use crate::memory::StepMemory;
use crate::owned::VecBook;
use std::alloc::{AllocError, Global};
use steps::{BookFault, Step, StepRecord};

impl VecBook {
    /// An empty book with room for so many steps, 1,024 at most.
    pub fn new(heap: Global, size: usize) -> Result<VecBook, AllocError>
        ensures { IfOk result (λ b. (owned_size b ≡ min size 1024) × (owned_steps b ≡ [])) }
    {
        let size = size.min(MOST_STEPS);
        let rows = Vec::with_capacity(heap, size)?;
        Ok(VecBook { rows, size })
    }
}

impl StepMemory for VecBook {
    ghost frame = { owned_frame };

    ghost steps = { owned_steps };

    ghost lawful = { owned_lawful };

    fn size(&self) -> usize {
        self.size
    }

    fn records(&self) -> &[StepRecord] {
        &self.rows
    }

    fn append(&mut self, step: Step) -> Result<(), BookFault> {
        if self.rows.len() == self.size {
            return Err(BookFault::Full);
        }
        self.rows.push_reserved(step.stored());
        Ok(())
    }

    fn replace(&mut self, place: usize, step: Step) {
        self.rows[place] = step.stored();
    }
}
