ghost use Rattle.std.specs.Prelude.{◌≡◌};

use gw_io::Failed;
use http_model::HeadFault;
use std::error::Error;
use std::fmt;

/// Why no more of a connection is read.
#[derive(Clone, Copy, Debug, PartialEq, Eq)]
pub enum IntakeFault {
    OutOfMemory,
    /// The source failed.
    ReadFault,
    /// The input ended inside a request.
    Cut,
    /// The text up to the empty line is no head (RFC 9112, sections 3 and 5).
    BadHead,
    /// The head is longer than 65536 bytes.
    HeadTooLarge,
    /// The fields do not tell where the body ends (RFC 9112, section 6); the method is HEAD or
    /// another.
    BadFraming { bodiless: bool },
    /// A chunk of the body breaks the chunked coding (RFC 9112, section 7.1).
    BadChunk,
    /// The chunks of the body are together longer than the intake takes.
    BodyTooLarge,
}

impl fmt::Display for IntakeFault {
    ghost use Rattle.std.specs.Prelude.{Some};
    ghost use Rattle.http_intake.specs.Faults.{fault_text};

    ghost output = { λ fault. Some (fault_text fault) };

    fn fmt<W: fmt::Write>(&self, f: &mut fmt::Formatter<W>) -> fmt::Result {
        f.write_str(match self {
            IntakeFault::OutOfMemory => "out of memory",
            IntakeFault::ReadFault => "reading failed",
            IntakeFault::Cut => "the input ended inside a request",
            IntakeFault::BadHead => "no head of a request",
            IntakeFault::HeadTooLarge => "the head is too large",
            IntakeFault::BadFraming { .. } => "the body is not framed",
            IntakeFault::BadChunk => "no chunk of a body",
            IntakeFault::BodyTooLarge => "the body is too large",
        })
    }
}

impl Error for IntakeFault {}

impl From<Failed> for IntakeFault {
    ghost use Rattle.http_intake.specs.declared.fault.IntakeFault.TheVariants.{ReadFault};

    ghost from_gives = { λ _ fault. fault ≡ ReadFault };

    fn from(_failed: Failed) -> IntakeFault {
        IntakeFault::ReadFault
    }
}

impl From<HeadFault> for IntakeFault {
    ghost use Rattle.http_intake.specs.Faults.{fault_of_head};

    ghost from_gives = { λ cause fault. fault ≡ fault_of_head cause };

    fn from(cause: HeadFault) -> IntakeFault {
        match cause {
            HeadFault::OutOfMemory => IntakeFault::OutOfMemory,
            HeadFault::BadHead => IntakeFault::BadHead,
            HeadFault::BadFraming { bodiless } => IntakeFault::BadFraming { bodiless },
        }
    }
}
