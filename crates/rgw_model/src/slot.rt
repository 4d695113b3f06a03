ghost use Rattle.std.specs.Prelude.{◌≡◌};

use rgw_types::{Bytes, Pairs, Stamp, Text};

/// What is stored under a name.
#[derive(Debug, Drop)]
pub struct Content {
    pub bytes: Bytes,
    /// The media type, of at most 256 bytes.
    pub kind: Text,
    /// The metadata, by rising name.
    pub meta: Pairs,
    /// The MD5 digest (RFC 1321) of the bytes that were put.
    pub etag: [u8; 16],
}

/// The state of one name.
#[derive(Debug, Drop)]
pub enum Slot {
    Nothing,
    Live(Content, Stamp),
    /// A mark of a deletion.
    Mark(Stamp),
}

impl Slot {
    ghost use Rattle.rgw_model.specs.Stamps.{stamp_of};

    /// The stamp of the last change, if there was one.
    pub fn stamp(&self) -> Option<Stamp>
        ensures { result ≡ stamp_of self.now }
    {
        match self {
            Slot::Nothing => None,
            Slot::Live(_, stamp) | Slot::Mark(stamp) => Some(*stamp),
        }
    }
}
