ghost use Rattle.std.specs.Prelude.{◌≡◌};

use object_words::{
    Bucket, BucketName, Conditions, EntryRow, Guard, NewHead, ObjectName, ShardKey,
};
use rgw_types::{Bytes, PartNumber, Text};

/// An operation on one object of one zone.
#[derive(Debug, Drop)]
pub enum Op {
    /// Reads the row of a container.
    BucketRead {
        zone: u8,
        name: BucketName,
    },
    /// Makes, changes or removes the row of a container, where it has the expected version; 0 where none
    /// is expected.
    BucketSwap {
        zone: u8,
        name: BucketName,
        expected: u64,
        new: Option<Bucket>,
    },
    /// Reads at most so many names of an account's containers above a name.
    AccountPage {
        zone: u8,
        account: Text,
        after: Text,
        limit: u32,
    },
    /// Reads at most so many names of containers above a name.
    BucketPage {
        zone: u8,
        after: Text,
        limit: u32,
    },
    /// Makes a shard.
    ShardMake {
        zone: u8,
        key: ShardKey,
    },
    /// Prepares a change of a name.
    Prepare {
        zone: u8,
        key: ShardKey,
        name: ObjectName,
    },
    /// Ends a change of a name that was made: with this version and row.
    Complete {
        zone: u8,
        key: ShardKey,
        name: ObjectName,
        tag: u64,
        version: u64,
        row: EntryRow,
    },
    /// Ends a change of a name that was not made.
    Cancel {
        zone: u8,
        key: ShardKey,
        name: ObjectName,
        tag: u64,
    },
    /// Reads at most so many entries of a shard above a name.
    Page {
        zone: u8,
        key: ShardKey,
        after: Text,
        limit: u32,
    },
    /// Puts an entry right that was seen with tags due: by what its head showed afterwards.
    Suggest {
        zone: u8,
        key: ShardKey,
        name: ObjectName,
        revision: u64,
        /// The clock at which the entry was seen.
        seen: u64,
        version: u64,
        row: EntryRow,
    },
    /// Reads the header of a shard.
    Stats {
        zone: u8,
        key: ShardKey,
    },
    /// Closes a shard to changes under a number, where no entry stands in the way: by force only none
    /// with a change under way, and that at its first name.
    CloseShard {
        zone: u8,
        key: ShardKey,
        id: u64,
        force: bool,
    },
    /// Takes a hold of a shard away whose number is not above this one.
    Release {
        zone: u8,
        key: ShardKey,
        id: u64,
    },
    /// Takes all entries of a shard away, and closes it for good.
    Shut {
        zone: u8,
        key: ShardKey,
    },
    /// Reads the head of a name.
    HeadRead {
        zone: u8,
        container: u64,
        name: ObjectName,
    },
    /// Gives a name new content.
    HeadWrite {
        zone: u8,
        container: u64,
        name: ObjectName,
        guard: Guard,
        new: NewHead,
        when: Conditions,
    },
    /// Makes a tail.
    TailMake {
        zone: u8,
        write: u64,
        part: PartNumber,
        bytes: Bytes,
    },
    /// Reads bytes of a tail.
    TailRead {
        zone: u8,
        write: u64,
        part: PartNumber,
        start: u64,
        count: u64,
    },
    /// Tells the zone's data log that a shard changes.
    Announce {
        zone: u8,
        container: u64,
        instance: u64,
        shard: u32,
        /// The name of the container.
        bucket: BucketName,
    },
}

impl Op {
    ghost use Rattle.realm_model.specs.Ops.{zone_of, kind_of};

    /// The zone of the object.
    pub fn zone(&self) -> u8
        ensures { result ≡ zone_of self.now }
    {
        match self {
            Op::BucketRead { zone, .. }
            | Op::BucketSwap { zone, .. }
            | Op::AccountPage { zone, .. }
            | Op::BucketPage { zone, .. }
            | Op::ShardMake { zone, .. }
            | Op::Prepare { zone, .. }
            | Op::Complete { zone, .. }
            | Op::Cancel { zone, .. }
            | Op::Page { zone, .. }
            | Op::Suggest { zone, .. }
            | Op::Stats { zone, .. }
            | Op::CloseShard { zone, .. }
            | Op::Release { zone, .. }
            | Op::Shut { zone, .. }
            | Op::HeadRead { zone, .. }
            | Op::HeadWrite { zone, .. }
            | Op::TailMake { zone, .. }
            | Op::TailRead { zone, .. }
            | Op::Announce { zone, .. } => *zone,
        }
    }

    /// The number of the kind of operation.
    pub fn kind(&self) -> u8
        ensures { result ≡ kind_of self.now }
    {
        match self {
            Op::BucketRead { .. } => 1,
            Op::BucketSwap { .. } => 2,
            Op::AccountPage { .. } => 3,
            Op::BucketPage { .. } => 4,
            Op::ShardMake { .. } => 7,
            Op::Prepare { .. } => 8,
            Op::Complete { .. } => 9,
            Op::Cancel { .. } => 10,
            Op::Page { .. } => 11,
            Op::Suggest { .. } => 12,
            Op::Stats { .. } => 13,
            Op::CloseShard { .. } => 15,
            Op::Release { .. } => 16,
            Op::Shut { .. } => 19,
            Op::HeadRead { .. } => 22,
            Op::HeadWrite { .. } => 23,
            Op::TailMake { .. } => 27,
            Op::TailRead { .. } => 28,
            Op::Announce { .. } => 33,
        }
    }
}
