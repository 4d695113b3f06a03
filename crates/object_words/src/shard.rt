/// Whether a shard takes changes of its entries (Ceph manual, Dynamic Bucket Index Resharding): none while
/// a reshard or a closing of this number holds it.
#[derive(Clone, Copy, Debug, PartialEq, Eq)]
pub enum Hold {
    Free,
    Reshard(u64),
    Closing(u64),
}

/// What became of a shard: it serves, its entries moved to the shards of another instance, or its
/// container is gone.
#[derive(Clone, Copy, Debug, PartialEq, Eq)]
pub enum Fate {
    Serving,
    Moved(u64),
    Closed,
}

/// The header of a shard.
#[derive(Clone, Copy, Debug, PartialEq, Eq)]
pub struct ShardStats {
    /// How many objects exist.
    pub objects: u64,
    /// The sum of their sizes; the greatest `u64` where it does not fit.
    pub bytes: u64,
    /// How many changes are under way.
    pub tags: u64,
    pub hold: Hold,
    /// A hold with this number or a lower one is refused.
    pub fence: u64,
}
