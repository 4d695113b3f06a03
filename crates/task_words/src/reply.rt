use list_words::ListedRows;
use object_words::{Bucket, MediaType};
use rgw_types::{Pairs, Stamp};
use swift_auth::Rule;

/// Why a request on an object or on a container is refused by what is stored.
#[derive(Clone, Copy, Debug, PartialEq, Eq)]
pub enum Refusal {
    /// It is not known who asks, and not everybody may.
    Unauthorized,
    /// This rule refuses the user.
    Denied(Rule),
    NoContainer,
    NoObject,
    /// A condition of the request does not hold.
    NotMet,
    /// The range begins behind the object, whose size this is, or has no bytes.
    NoRange { size: u64 },
    /// The body has another ETag than was sent.
    OtherEtag,
}

/// The reply of the bucket map to a request on an object, and the replies to requests for the counts and for
/// the listing of a container.
#[derive(Debug, Drop)]
pub enum MapReply {
    /// The object was stored.
    Stored {
        etag: [u8; 16],
        stamp: Stamp,
    },
    /// The `count` bytes from `start` of an object of `size` bytes are shown.
    Shown {
        kind: MediaType,
        meta: Pairs,
        etag: [u8; 16],
        stamp: Stamp,
        size: u64,
        start: u64,
        count: u64,
    },
    /// The object is the one that the client has.
    Same {
        etag: [u8; 16],
        stamp: Stamp,
    },
    /// How many objects a container has, and the sum of their sizes.
    Counted {
        row: Bucket,
        objects: u64,
        bytes: u64,
    },
    /// The rows of a container.
    Listed(ListedRows),
    Refused(Refusal),
}
