ghost use Rattle.std.specs.Prelude.{◌≡◌};
ghost use Rattle.object_words.specs.declared.why.ClassFault.TheVariants.{OutOfMemory, No};

use crate::ObjectName;
use rgw_types::Stamp;
use std::alloc::AllocError;

/// Why an operation was refused.
#[derive(Debug, Drop)]
pub enum Why {
    /// There is no such container, or no object to change.
    Absent,
    /// The row of the container has this version; 0 where there is none.
    Raced { version: u64 },
    /// A reshard or a closing of this number holds the shard.
    Held { id: u64 },
    /// The entries are in the shards of this instance.
    Moved { instance: u64 },
    /// The shard was closed with its container, or was never made.
    Closed,
    /// The tag is not in the entry.
    NoTag,
    /// The entry has this revision; 0 where there is none.
    Stale { revision: u64 },
    /// The number is not above this one.
    Fenced { fence: u64 },
    /// This object is there.
    NotEmpty { name: ObjectName },
    /// A change of this name is under way.
    Unsettled { name: ObjectName },
    /// The clock is not below the tag's deadline.
    Expired { deadline: u64, clock: u64 },
    /// A condition of the request fails; the stamp of what is there, if something is.
    NotMet { stamp: Option<Stamp> },
    /// What is there is not older; its stamp.
    Older { stamp: Stamp },
    /// The free frames, and those that the bytes need.
    NoSpace { free: u32, needed: u32 },
    /// The stripe is not there.
    Gone { clock: u64 },
    /// The log begins with this position.
    Trimmed { first: u64 },
}

/// Why a call on an object did nothing.
#[derive(Debug, Drop)]
pub enum ClassFault {
    OutOfMemory,
    No(Why),
}

impl From<AllocError> for ClassFault {
    ghost from_gives = { λ _ fault. fault ≡ OutOfMemory };

    fn from(_: AllocError) -> ClassFault {
        ClassFault::OutOfMemory
    }
}

impl From<Why> for ClassFault {
    ghost from_gives = { λ why fault. fault ≡ No why };

    fn from(why: Why) -> ClassFault {
        ClassFault::No(why)
    }
}
