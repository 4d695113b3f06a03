use crate::head_change::HeadChange;
use object_words::{BucketName, EntryRow, Guard, ObjectName, ShardKey};
use rgw_types::{Manifest, Stamp};
use task_words::{Asker, Refusal};

/// Who changes a head, and where.
#[derive(Drop)]
pub struct Target {
    pub zone: u8,
    pub asker: Asker,
    pub container: BucketName,
    pub name: ObjectName,
}

/// A change that was made under a tag, and is to be completed.
#[derive(Drop)]
pub struct Change {
    /// The shard in which the tag was prepared.
    pub home: ShardKey,
    pub tag: u64,
    pub version: u64,
    pub row: EntryRow,
    pub stamp: Stamp,
    pub old: Option<Manifest>,
}

/// What is kept of a change while it is completed.
#[derive(Clone, Copy)]
pub struct Unfinished {
    pub home: ShardKey,
    pub tag: u64,
    pub version: u64,
    pub stamp: Stamp,
    pub old: Option<Manifest>,
}

/// How many answers were Moved or Closed, and how many Expired.
#[derive(Clone, Copy, Debug, PartialEq, Eq)]
pub struct Tried {
    pub moved: u32,
    pub expired: u32,
}

/// How an update ended.
#[derive(Drop)]
pub enum Updated {
    /// The head was changed. The manifest that it replaced may be queued.
    Changed { stamp: Stamp, old: Option<Manifest> },
    /// The container's row refuses it.
    Refused(Refusal),
    /// A condition is not met.
    NotMet,
    /// A reshard or a closing of this number holds the shard.
    Busy { id: u64 },
    MovedOften,
    LateTag,
    NoSpace { free: u32, needed: u32 },
}

/// What comes after a cancel.
#[derive(Drop)]
pub enum After {
    /// The change is tried again.
    Again(HeadChange),
    End(Updated),
}

/// Where an update stands: what it does next, with all that it needs for it.
#[derive(Drop)]
pub enum Stage {
    /// The row comes next.
    Looking {
        change: HeadChange,
    },
    Preparing {
        key: ShardKey,
        change: HeadChange,
    },
    Announcing {
        key: ShardKey,
        guard: Guard,
        change: HeadChange,
    },
    Writing {
        key: ShardKey,
        guard: Guard,
        change: HeadChange,
    },
    Cancelling {
        key: ShardKey,
        tag: u64,
        after: After,
    },
    Completing {
        key: ShardKey,
        made: Change,
    },
    /// The row comes again, for the shard in which the change is completed.
    LookingForShard {
        made: Change,
    },
    Ended(Updated),
}

/// What is kept beside a stage while its operation is done. What the operation took comes back with it where it is refused.
#[derive(Clone, Copy)]
pub enum Rest {
    /// Nothing: the stage stands.
    Stands,
    Write { key: ShardKey, guard: Guard },
    Complete(Unfinished),
}
