//! What a reply of the Swift API says. The definitions of `specs` give each its bytes.
use crate::AccountRows;
use list_words::ListedRows;
use object_words::ObjectName;
use rgw_types::{Bytes, Pairs, Stamp, Text};

/// What of a request is not taken though its head was read, as the 400 names it.
#[derive(Clone, Copy, Debug, PartialEq, Eq)]
pub enum Invalid {
    /// The chunks of a body, or the fields behind them, break their grammar.
    Chunk,
    /// The target does not begin with a slash.
    Target,
    /// A `%` without two hexadecimal digits after it.
    Escape,
    /// What a part of the target stands for is not UTF-8.
    Utf8,
    /// A name that is empty or too long, or that has a byte 0.
    Name,
    Limit,
    Format,
    /// The value of a field is no text, or no number where one is needed.
    Value,
    /// Metadata or a media type above their limits.
    Meta,
    /// What is to be copied, or where to, is not named, or a body came with it.
    Copy,
    /// An expiry that is past, or after the year 9999.
    Expiry,
}

/// The rule by which something is denied.
#[derive(Clone, Copy, Debug, PartialEq, Eq)]
pub enum Denial {
    Account,
    Read,
    Write,
}

/// What a target names.
#[derive(Clone, Copy, Debug, PartialEq, Eq)]
pub enum TargetKind {
    Auth,
    Account,
    Container,
    Object,
}

/// How a listing is written.
#[derive(Clone, Copy, Debug, PartialEq, Eq)]
pub enum ListingForm {
    Plain,
    Json,
}

/// Why the gateway does not do what a request asks.
#[derive(Debug, Drop)]
pub enum SwiftRefusal {
    Invalid(Invalid),
    Unauthorized,
    Denied(Denial),
    NoPath,
    NoContainer,
    NoObject,
    /// The target takes other methods.
    NoMethod(TargetKind),
    /// The container is another account's.
    NotYours,
    /// The container has this object.
    NotEmpty { name: ObjectName },
    /// Changes of this name are under way.
    Unsettled { name: ObjectName },
    /// A PUT of an object has no length.
    NoLength,
    /// A condition of the request does not hold.
    NotMet,
    TooLarge,
    TargetTooLong,
    /// The range begins behind the object, whose size this is.
    NoRange { size: u64 },
    /// The content has another digest than the request says.
    OtherEtag,
    /// The request has a form that this gateway does not take yet.
    NotBuilt,
    /// Work on the container's shards is under way.
    Busy { id: u64 },
    MovedOften,
    RacedOften,
    /// A change was prepared too long ago.
    LateTag,
    /// The content that was to be copied went while it was read.
    LateRead,
    /// So many frames are free, and so many are needed.
    NoSpace { free: u32, needed: u32 },
}

/// What is shown of an object beside its bytes.
#[derive(Debug, Drop)]
pub struct ShownObject {
    pub kind: Text,
    pub meta: Pairs,
    pub etag: [u8; 16],
    pub stamp: Stamp,
    pub size: u64,
    /// The second since 1970 at which it expires.
    pub expires: Option<u64>,
}

/// The bytes of an object that are shown: `count` from `start` on, and at least one.
#[derive(Clone, Copy, Debug, PartialEq, Eq)]
pub struct ShownSpan {
    pub start: u64,
    pub count: u64,
}

/// What is shown of a container.
#[derive(Debug, Drop)]
pub struct ContainerCounts {
    pub objects: u64,
    pub bytes: u64,
    pub meta: Pairs,
    pub readers: Text,
    pub writers: Text,
    /// The request comes from a user of the container's account, who is shown the two lists.
    pub own: bool,
}

/// A reply of the Swift API.
#[derive(Debug, Drop)]
pub enum SwiftReply {
    /// An object was stored.
    Stored {
        etag: [u8; 16],
        stamp: Stamp,
    },
    /// An object is shown, whole or a span of it.
    Shown {
        object: ShownObject,
        span: Option<ShownSpan>,
    },
    /// The object is the one that the client has.
    Same {
        etag: [u8; 16],
        stamp: Stamp,
    },
    /// A container was made.
    Created,
    /// A container was there and is changed, or an object's metadata are.
    Accepted,
    /// Something was done that leaves nothing to show.
    Done,
    /// The rows of a container.
    Listed {
        rows: ListedRows,
        form: ListingForm,
    },
    Counted(ContainerCounts),
    /// The rows of an account.
    AccountListed {
        rows: AccountRows,
        form: ListingForm,
    },
    AccountCounted {
        containers: u64,
        objects: u64,
        bytes: u64,
    },
    /// A user is let in: where the account is, at the host that the request named, and the token.
    LetIn {
        host: Bytes,
        account: Text,
        token: Text,
    },
    Refused(SwiftRefusal),
}
