use std::alloc::{AllocError, AllocFailed};
use std::error::Error;
use std::fmt;

/// Why a users text was not read.
#[derive(Clone, Copy, Debug, PartialEq, Eq)]
pub enum UsersFault {
    OutOfMemory,
    /// The text is no list of users.
    BadUsers,
}

impl fmt::Display for UsersFault {
    ghost use Rattle.std.specs.Prelude.{Some};
    ghost use Rattle.swift_auth.specs.Faults.{fault_text};

    ghost output = { λ fault. Some (fault_text fault) };

    fn fmt<W: fmt::Write>(&self, f: &mut fmt::Formatter<W>) -> fmt::Result {
        f.write_str(match self {
            UsersFault::OutOfMemory => "out of memory",
            UsersFault::BadUsers => "bad users",
        })
    }
}

impl Error for UsersFault {}

impl From<AllocError> for UsersFault {
    ghost use Rattle.std.specs.Prelude.{◌≡◌};
    ghost use Rattle.swift_auth.specs.declared.fault.UsersFault.TheVariants.{OutOfMemory};

    ghost from_gives = { λ _ fault. fault ≡ OutOfMemory };

    fn from(_error: AllocError) -> UsersFault {
        UsersFault::OutOfMemory
    }
}

impl<T: Drop> From<AllocFailed<T>> for UsersFault {
    ghost use Rattle.std.specs.Prelude.{◌≡◌};
    ghost use Rattle.swift_auth.specs.declared.fault.UsersFault.TheVariants.{OutOfMemory};

    ghost from_gives = { λ _ fault. fault ≡ OutOfMemory };

    fn from(_error: AllocFailed<T>) -> UsersFault {
        UsersFault::OutOfMemory
    }
}
