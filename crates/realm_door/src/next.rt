//! What comes next of a task.
use realm_model::Op;

/// What comes next of a task.
#[derive(Clone, Copy, Debug, PartialEq, Eq)]
pub enum Next {
    Event,
    /// Bytes are wanted.
    Wants,
    /// The outcome is there.
    Done,
}

/// An operation, and what is kept while it is done.
#[derive(Drop)]
pub struct Taken<R> {
    pub op: Op,
    pub rest: R,
}
