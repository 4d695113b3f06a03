ghost use Rattle.std.specs.Prelude.{◌≡◌};

use std::alloc::AllocError;

/// Why a line was not read.
#[derive(Clone, Copy)]
pub(crate) enum NoLine {
    /// It is no line of a script.
    Bad,
    OutOfMemory,
}

impl From<AllocError> for NoLine {
    ghost use Rattle.script_words.specs.declared.no_line.NoLine.TheVariants.{OutOfMemory};

    ghost from_gives = { λ _ fault. fault ≡ OutOfMemory };

    fn from(_: AllocError) -> NoLine {
        NoLine::OutOfMemory
    }
}
