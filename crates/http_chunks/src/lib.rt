//! The chunked coding of a body of HTTP/1.1 (RFC 9112, section 7.1), and where the texts between the
//! bytes of a connection end: heads, chunk lines and trailers.
#![tactic(auto)]

mod body;
mod chunk_line;
mod laws;
mod place;
mod search;
mod trailers;

pub use body::{BodyEnd, ChunkedBody, read_chunked};
pub use chunk_line::{BREAK_LEN, LINE_LIMIT, opening_limit, read_opening};
pub use laws::{a_body_has_one_reading, a_later_byte_changes_no_body};
pub use place::{Place, TextEnd};
pub use search::scan;
pub use trailers::{TRAILER_FIELDS, TRAILER_LIMIT, are_trailers};
