ghost use Rattle.std.specs.Prelude.{◌≡◌};

use crate::Op;
use object_words::{Bucket, BucketNames, Changed, EntryPage, Guard, HeadSeen, ShardStats, Why};
use rgw_types::Bytes;

/// What an operation is answered.
#[derive(Debug, Drop)]
pub enum Reply {
    Done,
    /// The operation was refused, and left its object as it was.
    No(Why),
    /// The row of a container.
    Row(Bucket),
    /// Names of containers.
    Names(BucketNames),
    /// The tag of a change that was prepared.
    Prepared(Guard),
    Entries(EntryPage),
    Stats(ShardStats),
    /// What a head shows, and the clock.
    Head(HeadSeen, u64),
    Changed(Changed),
    Bytes(Bytes),
    /// A position in the data log.
    Position(u64),
}

impl Reply {
    ghost use Rattle.realm_model.specs.Shown.{row_shown, page_shown, header_shown};

    /// The row of a container, where it shows one.
    pub fn into_row(self) -> Option<Bucket>
        ensures { result ≡ row_shown self }
    {
        match self {
            Reply::Row(row) => Some(row),
            other => {
                drop(other);
                None
            }
        }
    }

    /// The page of a shard's entries, where it shows one.
    pub fn into_page(self) -> Option<EntryPage>
        ensures { result ≡ page_shown self }
    {
        match self {
            Reply::Entries(page) => Some(page),
            other => {
                drop(other);
                None
            }
        }
    }

    /// The header of a shard, where it shows one.
    pub fn into_stats(self) -> Option<ShardStats>
        ensures { result ≡ header_shown self }
    {
        match self {
            Reply::Stats(stats) => Some(stats),
            other => {
                drop(other);
                None
            }
        }
    }
}

/// An operation of an actor at a moment, with its answer. It stands in definitions alone: no value of it
/// is made.
#[derive(Debug, Drop)]
pub struct Event {
    pub pass: u64,
    pub count: u64,
    pub op: Op,
    pub moment: u64,
    pub reply: Reply,
}
