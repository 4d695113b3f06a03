//! The objects of a zone: their types, and what one call does to one object, as a refusal and a result.
#![tactic(auto)]

mod bucket;
mod entry;
mod etag;
mod hash;
mod head;
mod laws;
mod limits;
mod lists;
mod log;
mod shard;
mod shard_key;
mod why;

pub use bucket::{Bucket, Busy, ShardCount};
pub use entry::{Entry, EntryPage, EntryRow, Guard, Tag};
pub use etag::{etag_digits, meets};
pub use hash::shard_of;
pub use head::{Changed, Conditions, EtagRule, HeadSeen, NewHead, SeenSlot};
pub use laws::{
    keys_are_told_apart, maps_are_known_by_their_answers, shards_of_names_are_these,
    sums_move_by_one_entry,
};
pub use limits::{BucketName, MediaType, Name, ObjectName};
pub use lists::{BucketNames, Entries, LogRows, Tags, Texts};
pub use log::{LogPage, LogRow, LogWhat};
pub use shard::{Fate, Hold, ShardStats};
pub use shard_key::ShardKey;
pub use why::{ClassFault, Why};
