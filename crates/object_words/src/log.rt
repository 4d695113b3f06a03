use crate::{BucketName, LogRows, ObjectName};

/// What a row of a log names: an object, a shard of a container, or a container.
#[derive(Debug, Drop)]
pub enum LogWhat {
    /// In the log of a shard.
    Name(ObjectName),
    /// In the data log, with the name of the container.
    Shard {
        container: u64,
        instance: u64,
        shard: u32,
        bucket: BucketName,
    },
    /// In the metadata log.
    Bucket(BucketName),
}

/// A row of a log. Positions start at 1.
#[derive(Debug, Drop)]
pub struct LogRow {
    pub position: u64,
    pub what: LogWhat,
}

/// Rows of a log after a position.
#[derive(Debug, Drop)]
pub struct LogPage {
    pub rows: LogRows,
    /// The last position that was ever given; 0 for none.
    pub last: u64,
    /// The lowest position that is kept, or the next one where none is.
    pub first: u64,
    /// How many tags the shard has; 0 in other logs.
    pub tags: u64,
    /// Whether no further row follows.
    pub end: bool,
}
