ghost use Rattle.std.specs.Prelude.{◌≡◌};

use gw_io::Failed;
use std::alloc::AllocError;
use std::error::Error;
use std::fmt;

/// Why no line was read.
#[derive(Clone, Copy, Debug, PartialEq, Eq)]
pub enum LineFault {
    OutOfMemory,
    /// The source failed.
    ReadFault,
}

impl fmt::Display for LineFault {
    ghost use Rattle.std.specs.Prelude.{Some};
    ghost use Rattle.script_lines.specs.Faults.{fault_text};

    ghost output = { λ fault. Some (fault_text fault) };

    fn fmt<W: fmt::Write>(&self, f: &mut fmt::Formatter<W>) -> fmt::Result {
        f.write_str(match self {
            LineFault::OutOfMemory => "out of memory",
            LineFault::ReadFault => "reading failed",
        })
    }
}

impl Error for LineFault {}

impl From<AllocError> for LineFault {
    ghost use Rattle.script_lines.specs.declared.fault.LineFault.TheVariants.{OutOfMemory};

    ghost from_gives = { λ _ fault. fault ≡ OutOfMemory };

    fn from(_: AllocError) -> LineFault {
        LineFault::OutOfMemory
    }
}

impl From<Failed> for LineFault {
    ghost use Rattle.script_lines.specs.declared.fault.LineFault.TheVariants.{ReadFault};

    ghost from_gives = { λ _ fault. fault ≡ ReadFault };

    fn from(_: Failed) -> LineFault {
        LineFault::ReadFault
    }
}
