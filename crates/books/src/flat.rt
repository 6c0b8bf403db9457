//! A book over records that are lent to it.
ghost use Rattle.std.specs.Prelude.{◌≤◌, length};
ghost use Rattle.books.specs.Lawful.{SoundBelow};

use steps::StepRecord;

/// The steps are the first `count` of the records, in order of entry: lent memory can't grow, so a count stands beside it.
/// What the other records hold does not matter.
#[derive(Drop)]
pub struct FlatBook<'a> {
    pub(crate) records: &'a mut [StepRecord],
    pub(crate) count: usize,
    ghost room: { count ≤ length records.now },
    ghost small: { count ≤ 1024 },
    ghost sound: { SoundBelow records.now count },
}
