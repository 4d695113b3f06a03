use std::alloc::{AllocError, AllocFailed};
use std::error::Error;
use std::fmt;

/// Why a target or a place was not read.
#[derive(Clone, Copy, Debug, PartialEq, Eq)]
pub enum WordFault {
    OutOfMemory,
    /// A `%` without two hexadecimal digits after it.
    BadEscape,
    /// What a part stands for is not UTF-8.
    BadUtf8,
    /// A name that is empty or too long, or that has a byte 0.
    BadName,
    /// A `limit` that is not 1 to 9 digits.
    BadLimit,
    /// A `format` other than `json` and `plain`.
    BadFormat,
    /// A target that does not begin with a slash, or a place in which no slash ends the container.
    NotPath,
}

impl fmt::Display for WordFault {
    ghost use Rattle.std.specs.Prelude.{Some};
    ghost use Rattle.swift_words.specs.Faults.{fault_text};

    ghost output = { λ fault. Some (fault_text fault) };

    fn fmt<W: fmt::Write>(&self, f: &mut fmt::Formatter<W>) -> fmt::Result {
        f.write_str(match self {
            WordFault::OutOfMemory => "out of memory",
            WordFault::BadEscape => "bad escape",
            WordFault::BadUtf8 => "not UTF-8",
            WordFault::BadName => "bad name",
            WordFault::BadLimit => "bad limit",
            WordFault::BadFormat => "bad format",
            WordFault::NotPath => "not a path",
        })
    }
}

impl Error for WordFault {}

impl From<AllocError> for WordFault {
    ghost use Rattle.std.specs.Prelude.{◌≡◌};
    ghost use Rattle.swift_words.specs.declared.fault.WordFault.TheVariants.{OutOfMemory};

    ghost from_gives = { λ _ fault. fault ≡ OutOfMemory };

    fn from(_error: AllocError) -> WordFault {
        WordFault::OutOfMemory
    }
}

impl<T: Drop> From<AllocFailed<T>> for WordFault {
    ghost use Rattle.std.specs.Prelude.{◌≡◌};
    ghost use Rattle.swift_words.specs.declared.fault.WordFault.TheVariants.{OutOfMemory};

    ghost from_gives = { λ _ fault. fault ≡ OutOfMemory };

    fn from(_error: AllocFailed<T>) -> WordFault {
        WordFault::OutOfMemory
    }
}
