ghost use Rattle.std.specs.Prelude.{◌≡◌, Some, None, if◌then◌else◌};
ghost use Rattle.std.specs.Str.Parse.{digits_value};
ghost use Rattle.http_model.specs.Framings.{is_length, framing_of};

use crate::field::{field_count, field_value};
use crate::{Fields, Framing};
use http1::Header;
use http1::fields::{ContentLength, KnownFields};
use http1::text::eq_ignore_case;

const MAX_DIGITS: usize = 19;

/// The number that a value of 1 to 19 digits writes.
fn length_of(value: &[u8]) -> Option<u64>
    ensures { result ≡ (if is_length value.now then Some (digits_value 10 value.now) else None) }
{
    if value.len() > MAX_DIGITS {
        return None;
    }
    let field = Header {
        name: b"content-length",
        value,
    };
    match KnownFields::from_headers(&[field]).content_length {
        ContentLength::Value(length) => Some(length),
        ContentLength::Absent | ContentLength::Invalid => None,
    }
}

/// How the body behind a head of HTTP/1.`minor` is framed (RFC 9112, section 6.3). `None` where
/// its fields do not tell: several Content-Length or Transfer-Encoding fields, or both; a length
/// that is not 1 to 19 digits; a coding other than `chunked`; a coding in HTTP/1.0.
#[tactic(auto, using(crate::proofs::FramingLemmas::framing_cases), unfolding(crate::specs::Framings::framing_of))]
pub fn framing_of(minor: u8, fields: &Fields) -> Option<Framing>
    ensures { result ≡ framing_of minor fields.now }
{
    let fields = fields.as_slice();
    let codings = field_count(fields, b"transfer-encoding");
    let lengths = field_count(fields, b"content-length");
    if codings == 0 && lengths == 0 {
        return Some(Framing::Empty);
    }
    if codings == 0 && lengths == 1 {
        let length = length_of(field_value(fields, b"content-length")?)?;
        return Some(Framing::Length(length));
    }
    let coding = field_value(fields, b"transfer-encoding")?;
    if codings == 1 && lengths == 0 && minor == 1 && eq_ignore_case(coding, b"chunked") {
        return Some(Framing::Chunked);
    }
    None
}
