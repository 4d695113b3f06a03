//! The lists of this crate.
use crate::{BucketName, Entry, LogRow, Tag};
use rgw_types::{Items, Text};

/// Tags, by rising number.
pub type Tags = Items<Tag>;

/// Entries, by rising name.
pub type Entries = Items<Entry>;

/// Rows of a log, by rising position.
pub type LogRows = Items<LogRow>;

/// Texts.
pub type Texts = Items<Text>;

/// Names of containers, by rising name.
pub type BucketNames = Items<BucketName>;
