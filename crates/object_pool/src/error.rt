use std::error::Error;
use std::fmt;

/// Too few frames are free for the new bytes of an object.
#[derive(Clone, Copy, Debug, PartialEq, Eq)]
pub struct NoSpace {
    /// How many frames are free.
    pub free: u32,
    /// How many frames the new bytes need, or 4294967295 where that is less.
    pub needed: u32,
}

impl fmt::Display for NoSpace {
    ghost use Rattle.std.specs.Prelude.{◌++◌, Some, codes, decimal};

    ghost output = { λ e. Some (decimal e.needed ++ codes " frames needed, " ++ decimal e.free ++ codes " free") };

    fn fmt<W: fmt::Write>(&self, f: &mut fmt::Formatter<W>) -> fmt::Result {
        let free = self.free;
        let needed = self.needed;
        write!(f, "{needed} frames needed, {free} free")
    }
}

impl Error for NoSpace {}
