use crate::Fields;

/// What breaks the grammar of a request, as the 400 names it.
#[derive(Clone, Copy, Debug, PartialEq, Eq)]
pub enum BadRequest {
    /// The text up to the empty line is no head.
    Head,
    /// The head is above 65536 bytes.
    Size,
    /// The fields do not tell where the body ends.
    Framing,
    /// An HTTP/1.1 head has not just one Host field.
    Host,
}

/// The status code and the fields of a reply, in the order in which they are written
/// (RFC 9112, sections 4 and 5).
#[derive(Debug, Drop)]
pub struct ReplyHead {
    pub code: u16,
    pub fields: Fields,
}

/// What of a request decides how its reply is written, whatever the reply is.
#[derive(Clone, Copy, Debug, PartialEq, Eq)]
pub struct ReplyForm {
    /// The method is HEAD: the reply has all its fields and no body (RFC 9110, section 9.3.2).
    pub bodiless: bool,
    /// The connection is closed behind the reply (RFC 9112, section 9.6).
    pub close: bool,
}

/// How the requests of a connection end.
#[derive(Clone, Copy, Debug, PartialEq, Eq)]
pub enum StreamEnd {
    /// The input ended between two requests.
    Clean,
    /// The last reply says that the connection is closed.
    Closed,
    /// The input ended inside a request.
    Cut,
    /// What follows is no request, and nothing more is read. Where a head was read, and its method
    /// is HEAD, the reply has no body.
    Refused { word: BadRequest, bodiless: bool },
    /// What follows is a request of a form that is not taken yet, and nothing more is read.
    NotBuilt { bodiless: bool },
}
