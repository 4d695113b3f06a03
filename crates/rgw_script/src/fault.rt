use script_lines::LineFault;
use std::alloc::AllocError;
use std::error::Error;
use std::fmt;
use turn_cell::DoorFault;

/// Why a script ended before its input did.
#[derive(Clone, Copy, Debug, PartialEq, Eq)]
pub enum ScriptFault {
    OutOfMemory,
    /// Reading from the input failed.
    ReadFault,
    /// Writing to the output failed.
    WriteFault,
    /// The realm has as many events as it may have.
    Worn,
    /// The line of this number, from 1, can't be played.
    BadLine { line: u64 },
}

impl fmt::Display for ScriptFault {
    ghost use Rattle.std.specs.Prelude.{Some};
    ghost use Rattle.rgw_script.specs.Faults.{fault_text};

    ghost output = { λ fault. Some (fault_text fault) };

    fn fmt<W: fmt::Write>(&self, f: &mut fmt::Formatter<W>) -> fmt::Result {
        match self {
            ScriptFault::OutOfMemory => f.write_str("out of memory"),
            ScriptFault::ReadFault => f.write_str("reading failed"),
            ScriptFault::WriteFault => f.write_str("writing failed"),
            ScriptFault::Worn => f.write_str("the realm has all the events that it may have"),
            ScriptFault::BadLine { line } => write!(f, "bad line {line}"),
        }
    }
}

impl Error for ScriptFault {}

impl From<AllocError> for ScriptFault {
    ghost use Rattle.std.specs.Prelude.{◌≡◌};
    ghost use Rattle.rgw_script.specs.declared.fault.ScriptFault.TheVariants.{OutOfMemory};

    ghost from_gives = { λ _ fault. fault ≡ OutOfMemory };

    fn from(_: AllocError) -> ScriptFault {
        ScriptFault::OutOfMemory
    }
}

impl From<DoorFault> for ScriptFault {
    ghost use Rattle.std.specs.Prelude.{◌≡◌};
    ghost use Rattle.rgw_script.specs.Faults.{door_fault};

    ghost from_gives = { λ door fault. fault ≡ door_fault door };

    fn from(fault: DoorFault) -> ScriptFault {
        match fault {
            DoorFault::OutOfMemory => ScriptFault::OutOfMemory,
            DoorFault::Worn => ScriptFault::Worn,
        }
    }
}

impl From<LineFault> for ScriptFault {
    ghost use Rattle.std.specs.Prelude.{◌≡◌};
    ghost use Rattle.rgw_script.specs.Faults.{line_fault};

    ghost from_gives = { λ line fault. fault ≡ line_fault line };

    fn from(fault: LineFault) -> ScriptFault {
        match fault {
            LineFault::OutOfMemory => ScriptFault::OutOfMemory,
            LineFault::ReadFault => ScriptFault::ReadFault,
        }
    }
}
