// Numbers that only contracts see.
ghost use Rattle.std.specs.Prelude.{◌≡◌, ℕ, List, [], ◌++◌};
ghost use Rattle.std.specs.Borrow.{ftrue};

use std::marker::Model;

/// Bytes or moments in the order in which they came. It takes no memory, and its calls do nothing when
/// the program runs. A clause reads them as `numbers`.
#[derive(Debug, Drop)]
pub struct Trace {
    pub ghost numbers: { List ℕ },
}

impl Model for Trace {
    ghost also_owns = { λ _. ftrue };
}

// It owns nothing.
unsafe impl Send for Trace {}

impl Trace {
    pub fn new() -> Trace
        ensures { result.numbers ≡ [] }
    {
        Trace {}
    }

    /// With these bytes at the end.
    pub fn with_bytes(&self, _bytes: &[u8]) -> Trace
        ensures { result.numbers ≡ self.now.numbers ++ _bytes.now }
    {
        Trace {}
    }

    /// With these moments at the end.
    pub fn with_moments(&self, _moments: &[u64]) -> Trace
        ensures { result.numbers ≡ self.now.numbers ++ _moments.now }
    {
        Trace {}
    }
}
