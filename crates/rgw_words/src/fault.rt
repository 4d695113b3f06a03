//! Why words were not read.

/// Why words were not read.
#[derive(Clone, Copy, Debug, PartialEq, Eq)]
pub enum WordsFault {
    /// They are no words that this program takes.
    Refused,
    OutOfMemory,
}
