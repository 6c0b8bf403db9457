//! Refusals: the layers they come from, and those of a session file. Books and sales have faults of their own, with the same layers.
#![tactic(auto)]

mod file;
mod layer;
mod record;
mod section;

pub use file::FileFault;
pub use layer::Layer;
pub use record::RecordFault;
pub use section::Section;
