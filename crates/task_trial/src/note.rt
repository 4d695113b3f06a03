//! What is noted of an event.
use object_words::Why;
use realm_model::{Op, Reply};

/// One event: who made it, what was asked of the realm, and what it answered.
#[derive(Clone, Copy, Debug)]
pub struct Note {
    pub number: u64,
    /// In microseconds.
    pub clock: u64,
    /// The number of the actor in its pass.
    pub actor: u64,
    pub asked: &'static str,
    pub told: Told,
}

/// An answer, in short.
#[derive(Clone, Copy, Debug)]
pub enum Told {
    Done,
    Refused(Refused),
    Row {
        id: u64,
        version: u64,
        shards: u32,
    },
    Names {
        count: usize,
    },
    Tag {
        tag: u64,
        deadline: u64,
    },
    Entries,
    Counts {
        objects: u64,
        bytes: u64,
    },
    Head {
        version: u64,
    },
    Changed {
        version: u64,
        micros: u64,
        size: u64,
    },
    Bytes {
        count: usize,
    },
    Position(u64),
}

/// A refusal, in short.
#[derive(Clone, Copy, Debug)]
pub enum Refused {
    Absent,
    Expired { deadline: u64, clock: u64 },
    NoSpace { free: u32, needed: u32 },
    Otherwise,
}

pub fn name_of(op: &Op) -> &'static str {
    match op {
        Op::BucketRead { .. } => "read the row",
        Op::BucketSwap { .. } => "swap the row",
        Op::AccountPage { .. } => "read names of an account",
        Op::BucketPage { .. } => "read names",
        Op::ShardMake { .. } => "make a shard",
        Op::Prepare { .. } => "prepare",
        Op::Complete { .. } => "complete",
        Op::Cancel { .. } => "cancel",
        Op::Page { .. } => "read a page",
        Op::Suggest { .. } => "suggest",
        Op::Stats { .. } => "read the counts",
        Op::CloseShard { .. } => "close a shard",
        Op::Release { .. } => "release a shard",
        Op::Shut { .. } => "shut a shard",
        Op::HeadRead { .. } => "read the head",
        Op::HeadWrite { .. } => "write the head",
        Op::TailMake { .. } => "make a tail",
        Op::TailRead { .. } => "read a tail",
        Op::Announce { .. } => "announce",
    }
}

fn refusal_of(why: &Why) -> Refused {
    match why {
        Why::Absent => Refused::Absent,
        Why::Expired { deadline, clock } => Refused::Expired {
            deadline: *deadline,
            clock: *clock,
        },
        Why::NoSpace { free, needed } => Refused::NoSpace {
            free: *free,
            needed: *needed,
        },
        _ => Refused::Otherwise,
    }
}

pub fn answer_of(reply: &Reply) -> Told {
    match reply {
        Reply::Done => Told::Done,
        Reply::No(why) => Told::Refused(refusal_of(why)),
        Reply::Row(row) => Told::Row {
            id: row.id,
            version: row.version,
            shards: row.shards.get(),
        },
        Reply::Names(names) => Told::Names { count: names.len() },
        Reply::Prepared(guard) => Told::Tag {
            tag: guard.tag,
            deadline: guard.deadline,
        },
        Reply::Entries(_) => Told::Entries,
        Reply::Stats(stats) => Told::Counts {
            objects: stats.objects,
            bytes: stats.bytes,
        },
        Reply::Head(head, _) => Told::Head {
            version: head.version,
        },
        Reply::Changed(changed) => Told::Changed {
            version: changed.version,
            micros: changed.stamp.micros,
            size: changed.row.size,
        },
        Reply::Bytes(bytes) => Told::Bytes { count: bytes.len() },
        Reply::Position(position) => Told::Position(*position),
    }
}
