use crate::{Entries, MediaType, ObjectName, Tags};
use rgw_types::Stamp;
use std::alloc::Global;
use std::marker::Model;

/// A change of a name that was prepared: the number of its prepare event, and the moment from which it
/// no longer counts.
#[derive(Clone, Copy, Debug, PartialEq, Eq)]
pub struct Tag {
    pub tag: u64,
    pub deadline: u64,
}

impl Tag {
    ghost use Rattle.std.specs.Prelude.{◌≡◌};
    ghost use Rattle.object_words.specs.Tags.{tag_of};

    /// The tag that the prepare event of this number gives, which lives so long from its clock on. The
    /// deadline stops at the greatest `u64`.
    pub fn prepared(number: u64, clock: u64, life: u64) -> Tag
        ensures { result ≡ tag_of number clock life }
    {
        Tag {
            tag: number,
            deadline: clock.saturating_add(life),
        }
    }
}

/// What a change of a head is made under: a tag, as its prepare event gave it.
#[derive(Clone, Copy, Debug, PartialEq, Eq)]
pub struct Guard {
    pub tag: u64,
    pub deadline: u64,
}

/// What the index says of an object.
///
/// The type has at most 256 bytes, and the stamp a zone of 1 to 8. Where the object does not exist, the
/// size is 0, the stamp is moment 0 of zone 1, the ETag is of zeros and the type is empty.
#[derive(Debug, Drop)]
pub struct EntryRow {
    pub exists: bool,
    pub size: u64,
    pub stamp: Stamp,
    pub etag: [u8; 16],
    pub kind: MediaType,
}

impl Model for EntryRow {
    ghost use Rattle.object_words.specs.Rows.{RowView, IsRow};

    ghost Value = { RowView };

    ghost use Rattle.object_words.specs.RowsOf.{row_view};

    ghost view = { row_view };

    ghost invariant = { λ row. IsRow (row_view row) };
}

impl EntryRow {
    ghost use Rattle.std.specs.Prelude.{◌≡◌};
    ghost use Rattle.object_words.specs.Rows.{no_row};

    /// The row of an object that does not exist. Takes no memory.
    pub fn absent(alloc: Global) -> EntryRow
        ensures { result ≡ no_row }
    {
        EntryRow {
            exists: false,
            size: 0,
            stamp: Stamp { micros: 0, zone: 1 },
            etag: [0; 16],
            kind: MediaType::absent(alloc),
        }
    }
}

/// What the index keeps of a name: the row, the version of the change that it is from, how often the
/// entry changed, and the changes under way, by rising number.
#[derive(Debug, Drop)]
pub struct Entry {
    pub name: ObjectName,
    pub version: u64,
    pub revision: u64,
    pub row: EntryRow,
    pub tags: Tags,
}

impl Model for Entry {
    ghost use Rattle.std.specs.Prelude.{◌≡◌, ℕ, List, true};
    ghost use Rattle.object_words.specs.Tags.{tags_rise};
    ghost use Rattle.object_words.specs.Entries.{EntryView};

    ghost Value = { List ℕ × EntryView };

    ghost view = { λ e. (e.name, record { version = e.version; revision = e.revision; row = e.row; tags = e.tags }) };

    ghost invariant = { λ e. tags_rise e.tags ≡ true };
}

/// Entries of a shard by rising name, whether no further one follows, and the clock at the read.
#[derive(Debug, Drop)]
pub struct EntryPage {
    pub rows: Entries,
    pub end: bool,
    pub clock: u64,
}
