use crate::Span;
use object_words::{BucketName, Conditions, MediaType, ObjectName};
use rgw_types::{Pairs, Text};

/// A GET or a HEAD of an object.
#[derive(Debug, Drop)]
pub struct GetCommand {
    pub container: BucketName,
    pub name: ObjectName,
    pub when: Conditions,
    /// The range, which counts only where the bytes are wanted.
    pub span: Option<Span>,
    /// Whether the bytes are wanted: a GET and no HEAD.
    pub body: bool,
}

/// A PUT of an object.
#[derive(Debug, Drop)]
pub struct PutCommand {
    pub container: BucketName,
    pub name: ObjectName,
    /// The media type, where one was sent.
    pub kind: Option<MediaType>,
    /// The metadata, by rising name.
    pub meta: Pairs,
    /// The ETag that the body is to have, where one was sent: 32 hexadecimal digits in lower case, or
    /// another text, which no body has.
    pub etag: Option<Text>,
    pub when: Conditions,
}

/// How the body of a PUT ended.
#[derive(Clone, Copy, Debug, PartialEq, Eq)]
pub enum BodyEnd {
    /// It was read whole.
    Whole,
    /// It ended early, or was refused.
    Failed,
}
