// The traits that stand for the outside.
ghost use Rattle.std.specs.Prelude.{◌≡◌, ℕ, List, [], ◌∷◌, None, Some, codes};
ghost use Rattle.std.specs.declared.option.Option.{Option};
ghost use Rattle.std.specs.Io.KnownBytes.{Appends};
ghost use Rattle.gw_io.specs.Outside.{IsAsPlanned, Reads, Writes};

use std::error::Error;
use std::fmt;

/// A call on the outside failed. What failed is not told; the object counts it.
#[derive(Clone, Copy, Debug, PartialEq, Eq)]
pub struct Failed;

impl fmt::Display for Failed {
    ghost output = { λ _. Some (codes "input or output failed") };

    fn fmt<W: fmt::Write>(&self, f: &mut fmt::Formatter<W>) -> fmt::Result {
        f.write_str("input or output failed")
    }
}

impl Error for Failed {}

/// Gives bytes, as a file, a connection or standard input does.
pub trait Source {
    /// The bytes that are left, where the source tells them. One that told them goes on telling.
    ghost left: { Self → Option (List ℕ) };

    /// How often the source has failed, up to the greatest `u64`. It never falls, and rises where a
    /// call fails and nowhere else.
    ghost faults: { Self → ℕ };

    /// Moves the next bytes to the front of `buf` and answers their number. Into a `buf` that is
    /// not empty, 0 is the end of input. A call that fails takes no byte.
    fn read(&mut self, buf: &mut [u8]) -> Result<usize, Failed>
        ensures { Reads (left self.old) (left self.new) (faults self.old) (faults self.new) result buf.new };
}

/// Takes bytes, as a file, a connection or standard output does.
pub trait Sink {
    /// The bytes that were taken, where the sink tells them. One that told them goes on telling.
    ghost taken: { Self → Option (List ℕ) };

    /// How often the sink has failed, up to the greatest `u64`. It never falls, and rises where a call
    /// fails and nowhere else.
    ghost faults: { Self → ℕ };

    /// Takes some first bytes of a piece and answers their number: at least one, unless the piece
    /// is empty. A call that fails takes none.
    fn write(&mut self, bytes: &[u8]) -> Result<usize, Failed>
        ensures { Writes (taken self.old) (taken self.new) (faults self.old) (faults self.new) result bytes.now };
}

/// Tells moments, in microseconds since 1970. They may stand still, and may go back.
pub trait Clock: Send + Drop {
    /// The moments told so far, in order, where the clock tells them. One that told them goes on
    /// telling.
    ghost told: { Self → Option (List ℕ) };

    /// The moment of each call, from 0, where that is settled before the calls. No call changes it.
    ghost plan: { Self → Option (ℕ → ℕ) } = { λ _. None };

    /// The moment now. It never fails.
    fn now(&mut self) -> u64
        ensures told { Appends (told self.old) (told self.new) (result ∷ []) }
        ensures plan { plan self.new ≡ plan self.old }
        ensures as_planned { IsAsPlanned (plan self.new) (told self.new) };

    /// A clock for another thread. It takes no memory and never fails. It has told what this one
    /// has told so far, and from then on each goes its own way.
    fn twin(&self) -> Self
        ensures told { told result ≡ told self.now }
        ensures plan { plan result ≡ plan self.now };
}
