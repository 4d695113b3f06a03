//! How one request was served.

/// How one request was served.
#[derive(Clone, Copy, Debug, PartialEq, Eq)]
pub enum Served {
    /// The whole reply was written, behind the body or with none of it read where the reply's form says close.
    Replied,
    /// So it was, in the form that says close: the body's chunks went wrong, or no 100 was written for it.
    Closed,
    /// The same, and that they went wrong is what the reply says.
    Refused,
    /// The input ended inside the body, and nothing was written.
    Cut,
}
