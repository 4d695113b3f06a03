use crate::MapReply;

/// How a task of a request ended.
#[derive(Debug, Drop)]
pub enum Outcome {
    Done(MapReply),
    /// The body ended early, or was refused.
    BodyFailed,
    /// A reshard or a closing of this number holds the shard.
    Busy { id: u64 },
    /// 16 events were answered that the shard no longer serves.
    MovedOften,
    /// 16 changes of a row were answered that the row is another by now.
    RacedOften,
    /// Three changes of the head were answered that the tag's deadline had passed.
    LateTag,
    /// A stripe was gone: the clocks of the read that showed it, and of the one that missed it.
    LateRead { read_at: u64, clock: u64 },
    /// So many frames were free, and so many were needed.
    NoSpace { free: u32, needed: u32 },
}
