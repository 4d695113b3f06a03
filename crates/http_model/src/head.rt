ghost use Rattle.std.specs.Prelude.{◌≡◌};
ghost use Rattle.http_model.specs.Forms.{has_host, is_get, is_put, is_bodiless};

use crate::Fields;
use crate::field::field_count;
use rgw_types::{Bytes, Text};

/// The most requests of a connection.
pub const REQUEST_LIMIT: u64 = 100_000;

/// How the body of a request is framed (RFC 9112, section 6).
#[derive(Clone, Copy, Debug, PartialEq, Eq)]
pub enum Framing {
    /// No field frames a body, and there is none.
    Empty,
    /// So many bytes by `Content-Length`.
    Length(u64),
    /// By `Transfer-Encoding: chunked`.
    Chunked,
}

/// What the head of a request says (RFC 9112, sections 3, 5 and 6).
#[derive(Debug, Drop)]
pub struct Head {
    pub method: Text,
    pub target: Bytes,
    /// 0 for HTTP/1.0, 1 for HTTP/1.1.
    pub minor: u8,
    pub fields: Fields,
    pub framing: Framing,
}

impl Head {
    /// Whether there are as many Host fields as the version wants: just one in HTTP/1.1, any number
    /// in HTTP/1.0 (RFC 9112, section 3.2).
    #[tactic(auto, unfolding(crate::specs::Forms::has_host))]
    pub fn has_host(&self) -> bool
        ensures { result ≡ has_host self.now }
    {
        self.minor == 0 || field_count(self.fields.as_slice(), b"host") == 1
    }

    /// Whether the method is GET.
    pub fn is_get(&self) -> bool
        ensures { result ≡ is_get self.now }
    {
        self.method.as_bytes() == b"GET".as_slice()
    }

    /// Whether the method is PUT.
    pub fn is_put(&self) -> bool
        ensures { result ≡ is_put self.now }
    {
        self.method.as_bytes() == b"PUT".as_slice()
    }

    /// Whether the reply has no body: the method is HEAD (RFC 9110, section 9.3.2).
    pub fn is_bodiless(&self) -> bool
        ensures { result ≡ is_bodiless self.now.method }
    {
        self.method.as_bytes() == b"HEAD".as_slice()
    }
}

/// A request that was read whole.
#[derive(Debug, Drop)]
pub struct Request {
    pub head: Head,
    /// The content without its framing; none where it was left unread.
    pub body: Bytes,
}
