ghost use Rattle.std.specs.Prelude.{◌↔◌, IsTrue};
ghost use Rattle.http_chunks.specs.Chunks.{AreTrailers};

use httparse::Status;
use httparse::spans::{EMPTY_HEADER_SPAN, parse_headers};

/// The longest text of trailers in bytes, with the empty line.
pub const TRAILER_LIMIT: usize = 65536;

/// The most fields of trailers.
pub const TRAILER_FIELDS: usize = 128;

/// Whether the text, all of it, is trailers: at most 128 field lines and an empty line (RFC 9112,
/// section 7.1.2).
pub fn are_trailers(text: &[u8]) -> bool
    ensures { IsTrue result ↔ AreTrailers text.now }
{
    let mut spans = [EMPTY_HEADER_SPAN; TRAILER_FIELDS];
    match parse_headers(text, &mut spans) {
        Ok(Status::Complete((len, _))) => len == text.len(),
        _ => false,
    }
}
