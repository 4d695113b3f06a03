use object_words::{EntryRow, MediaType, NewHead, ObjectName};
use rgw_types::{Items, Stamp, Text};

/// What a listing shows of an object besides its name.
#[derive(Debug, Drop)]
pub struct ListedThing {
    pub size: u64,
    /// When it was stored, and in which zone.
    pub stamp: Stamp,
    /// The MD5 digest (RFC 1321) of its bytes.
    pub etag: [u8; 16],
    pub kind: MediaType,
}

/// A row of a container's listing.
#[derive(Debug, Drop)]
pub enum ListedRow {
    Thing(ObjectName, ListedThing),
    /// The names that begin with this text, which ends with the delimiter.
    Subdir(Text),
}

/// Rows of a container's listing, in the order in which they are shown.
pub type ListedRows = Items<ListedRow>;

/// A row of an account's listing: a container with the number of its objects and their bytes, or, as
/// `subdir`, the names that have this front in common, with 0 for both.
#[derive(Debug, Drop)]
pub struct AccountRow {
    pub name: Text,
    pub count: u64,
    pub bytes: u64,
    pub subdir: bool,
}

/// Rows of an account's listing, in the order in which they are shown.
pub type AccountRows = Items<AccountRow>;

impl ListedRow {
    ghost use Rattle.std.specs.Prelude.{◌≡◌};
    ghost use Rattle.list_words.specs.Listings.{row_key};

    /// The text by which rows are ordered: the name of the object, or the subdir.
    pub fn key(&self) -> &Text
        ensures { result.now ≡ row_key self.now }
    {
        match self {
            ListedRow::Thing(name, _) => name.as_text(),
            ListedRow::Subdir(text) => text,
        }
    }
}

impl ListedThing {
    ghost use Rattle.std.specs.Prelude.{◌≡◌};
    ghost use Rattle.object_words.specs.declared.head.SeenSlot.TheVariants.{Live};
    ghost use Rattle.object_words.specs.Heads.{row_of};
    ghost use Rattle.list_words.specs.Listings.{thing_of};

    /// By what the index says.
    pub fn of_row(row: EntryRow) -> ListedThing
        ensures { result ≡ thing_of row }
    {
        let EntryRow {
            size,
            stamp,
            etag,
            kind,
            ..
        } = row;
        ListedThing {
            size,
            stamp,
            etag,
            kind,
        }
    }

    /// By the object's head.
    pub fn of_head(new: NewHead, stamp: Stamp) -> ListedThing
        ensures { result ≡ thing_of (row_of (Live new stamp)) }
    {
        let size = new.manifest.size;
        let NewHead { etag, kind, .. } = new;
        ListedThing {
            size,
            stamp,
            etag,
            kind,
        }
    }
}
