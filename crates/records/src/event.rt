//! One event of a session.

use offers::{NewStep, Raise};

/// What a session's clerk recorded. An opening has a row, seven increments of two bytes: lent by the file, or its own.
#[derive(Clone, Copy, PartialEq, Eq, Debug)]
pub enum Event<R> {
    Open(R),
    NewStep(NewStep),
    Raise(Raise),
    Close,
    Changeover,
}
