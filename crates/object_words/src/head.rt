use crate::{EntryRow, MediaType, Texts};
use rgw_types::{Bytes, Manifest, Pairs, Stamp};

/// What a head keeps of an object: where its bytes are, the first of them, and its attributes.
#[derive(Debug, Drop)]
pub struct NewHead {
    pub manifest: Manifest,
    pub first: Bytes,
    pub kind: MediaType,
    /// The metadata, by rising name.
    pub meta: Pairs,
    /// The MD5 digest (RFC 1321) of the object's bytes.
    pub etag: [u8; 16],
}

/// The state of one name, as its head shows it.
#[derive(Debug, Drop)]
pub enum SeenSlot {
    Nothing,
    Live(NewHead, Stamp),
    /// A mark of a deletion.
    Mark(Stamp),
}

/// What a read of a head shows: the number of its last change, and the slot.
#[derive(Debug, Drop)]
pub struct HeadSeen {
    pub version: u64,
    pub slot: SeenSlot,
}

/// What a change of a head left: its number, the stamp, the row for the index, and the replaced manifest
/// where it has tails.
#[derive(Debug, Drop)]
pub struct Changed {
    pub version: u64,
    pub stamp: Stamp,
    pub row: EntryRow,
    pub old: Option<Manifest>,
}

/// Which ETags meet a condition (RFC 9110, sections 13.1.1 and 13.1.2).
#[derive(Debug, Drop)]
pub enum EtagRule {
    /// `*`: any object that is there.
    Any,
    OneOf(Texts),
}

/// The conditions of a request (RFC 9110, section 13.1), the moments in seconds since 1970. A change of a
/// head looks at the first two.
#[derive(Debug, Drop)]
pub struct Conditions {
    /// If-Match.
    pub matches: Option<EtagRule>,
    /// If-None-Match.
    pub none: Option<EtagRule>,
    /// If-Modified-Since.
    pub modified: Option<u64>,
    /// If-Unmodified-Since.
    pub unmodified: Option<u64>,
}
