ghost use Rattle.std.specs.Prelude.{◌≡◌, ◌↔◌, ◌≤◌, IsSome, IfSome};
ghost use Rattle.object_words.specs.Limits.{shard_limit};

use rgw_types::{Pairs, Text};
use std::marker::Model;

/// How many shards the index of a container has: 1 to 1999.
#[derive(Clone, Copy, Debug, PartialEq, Eq)]
pub struct ShardCount {
    count: u32,
}

impl Model for ShardCount {
    ghost use Rattle.std.specs.Prelude.{◌≤◌, ℕ};
    ghost use Rattle.object_words.specs.Limits.{shard_limit};

    ghost Value = { ℕ };

    ghost view = { λ shards. shards.count };

    ghost invariant = { λ shards. (1 ≤ shards.count) × (shards.count ≤ shard_limit) };

    ghost inverse = { λ count. record { count = count } };
}

impl ShardCount {
    /// The greatest number of shards.
    pub const MOST: u32 = 1999;

    /// So many shards, where that is within the limits.
    pub fn new(count: u32) -> Option<ShardCount>
        ensures limits { IsSome result ↔ ((1 ≤ count) × (count ≤ shard_limit)) }
        ensures made { IfSome result (λ shards. shards ≡ count) }
    {
        if count >= 1 && count <= Self::MOST {
            Some(ShardCount { count })
        } else {
            None
        }
    }

    /// The number.
    pub fn get(self) -> u32
        ensures value { result ≡ self }
        ensures least { 1 ≤ result }
        ensures most { result ≤ shard_limit }
    {
        self.count
    }
}

/// Work on the shards of a container that is under way: a reshard, or a closing.
#[derive(Clone, Copy, Debug, PartialEq, Eq)]
pub struct Busy {
    pub number: u64,
    pub closing: bool,
}

/// The row of a container.
#[derive(Debug, Drop)]
pub struct Bucket {
    /// The number of the first event of the request that made the container.
    pub id: u64,
    /// The account that owns it.
    pub owner: Text,
    /// The number of the row's last change in its zone.
    pub version: u64,
    /// The number of the event in zone 1 that last changed the part that zones share, or made the row.
    pub shared: u64,
    /// The last number that was given to a reshard or a closing; 0 at first.
    pub number: u64,
    pub busy: Option<Busy>,
    /// The number of the first event of the operation that made the shards.
    pub instance: u64,
    pub shards: ShardCount,
    /// The container's metadata, by rising name.
    pub meta: Pairs,
    /// Who may read, as it was sent.
    pub readers: Text,
    /// Who may write, as it was sent.
    pub writers: Text,
}
