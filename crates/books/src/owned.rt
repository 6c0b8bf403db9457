//! A book that owns its records.
ghost use Rattle.std.specs.Prelude.{◌≤◌, vec_len, vec_capacity};
ghost use Rattle.books.specs.Lawful.{SoundBelow};

use steps::StepRecord;

/// The steps are the rows, in order of entry, `size` at most. All memory is there from the start, so that no put fails for
/// want of it.
#[derive(Drop)]
pub struct VecBook {
    pub(crate) rows: Vec<StepRecord>,
    pub(crate) size: usize,
    ghost small: { size ≤ 1024 },
    ghost room: { vec_len rows ≤ size },
    ghost memory: { size ≤ vec_capacity rows },
    ghost sound: { SoundBelow rows.items (vec_len rows) },
}
