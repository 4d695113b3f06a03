//! Faults of a connection.
ghost use Rattle.std.specs.Prelude.{◌≡◌};
ghost use Rattle.call_service.specs.Faults.{fault_by_door};

use gw_io::Failed;
use std::alloc::{AllocError, AllocFailed};
use std::error::Error;
use std::fmt;
use turn_cell::DoorFault;

/// Why a connection is not served to its end.
#[derive(Clone, Copy, Debug, PartialEq, Eq)]
pub enum ServeFault {
    OutOfMemory,
    /// Reading from the source failed.
    ReadFault,
    /// Writing to the sink failed.
    WriteFault,
    /// The realm has as many events as it may have.
    Worn,
    /// A stripe was gone after the head of its reply was written: the clocks of the read that showed it, and
    /// of the one that missed it.
    Late { read_at: u64, clock: u64 },
}

impl fmt::Display for ServeFault {
    ghost use Rattle.std.specs.Prelude.{Some};
    ghost use Rattle.call_service.specs.Faults.{fault_text};

    ghost output = { λ fault. Some (fault_text fault) };

    fn fmt<W: fmt::Write>(&self, f: &mut fmt::Formatter<W>) -> fmt::Result {
        f.write_str(match self {
            ServeFault::OutOfMemory => "out of memory",
            ServeFault::ReadFault => "reading failed",
            ServeFault::WriteFault => "writing failed",
            ServeFault::Worn => "the realm has all the events that it may have",
            ServeFault::Late { .. } => "a stripe was gone",
        })
    }
}

impl Error for ServeFault {}

impl From<AllocError> for ServeFault {
    ghost use Rattle.std.specs.Prelude.{◌≡◌};
    ghost use Rattle.call_service.specs.declared.fault.ServeFault.TheVariants.{OutOfMemory};

    ghost from_gives = { λ _ fault. fault ≡ OutOfMemory };

    fn from(_error: AllocError) -> ServeFault {
        ServeFault::OutOfMemory
    }
}

impl From<Failed> for ServeFault {
    ghost use Rattle.std.specs.Prelude.{◌≡◌};
    ghost use Rattle.call_service.specs.declared.fault.ServeFault.TheVariants.{WriteFault};

    ghost from_gives = { λ _ fault. fault ≡ WriteFault };

    fn from(_failed: Failed) -> ServeFault {
        ServeFault::WriteFault
    }
}

impl From<DoorFault> for ServeFault {
    ghost use Rattle.std.specs.Prelude.{◌≡◌};
    ghost use Rattle.call_service.specs.Faults.{fault_by_door};

    ghost from_gives = { λ cause fault. fault ≡ fault_by_door cause };

    fn from(fault: DoorFault) -> ServeFault {
        fault_of(fault)
    }
}

/// The fault of a connection that a door's fault is.
pub fn fault_of(fault: DoorFault) -> ServeFault
    ensures { result ≡ fault_by_door fault }
{
    match fault {
        DoorFault::OutOfMemory => ServeFault::OutOfMemory,
        DoorFault::Worn => ServeFault::Worn,
    }
}
