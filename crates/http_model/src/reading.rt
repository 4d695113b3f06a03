ghost use Rattle.std.specs.Prelude.{◌≡◌, IfOk, IfSome, IfNone, Bool, All, IsUtf8, length, map};
ghost use Rattle.httparse.specs.Grammar.{RequestHead};
ghost use Rattle.httparse.specs.Spans.{IsHeaderWithin};
ghost use Rattle.http_model.specs.declared.reading.HeadFault.TheVariants.{OutOfMemory};
ghost use Rattle.http_model.specs.Heads.{IsTree, SaysHead, framing_in};
ghost use Rattle.http_model.specs.Forms.{is_bodiless};
ghost use Rattle.http_model.specs.HeadSpans.{CoversHead, HasTextName, field_in};

use crate::framing::framing_of;
use crate::{Field, Fields, Head};
use httparse::Status;
use httparse::spans::{EMPTY_HEADER_SPAN, HeaderSpan, RequestSpans, parse_request};
use rgw_types::{Bytes, Text};
use std::alloc::{AllocError, Global};
use std::str;

/// The longest text of a head in bytes.
pub const HEAD_LIMIT: usize = 65536;

/// The most fields of a head.
pub const FIELD_LIMIT: usize = 128;

/// Why a text gives no head.
#[derive(Clone, Copy, Debug, PartialEq, Eq)]
pub enum HeadFault {
    OutOfMemory,
    /// The text is no head, or has more than 128 fields.
    BadHead,
    /// The fields do not tell where the body ends; the method is HEAD or another.
    BadFraming { bodiless: bool },
}

impl From<AllocError> for HeadFault {
    ghost from_gives = { λ _ e. e ≡ OutOfMemory };

    fn from(_e: AllocError) -> HeadFault {
        HeadFault::OutOfMemory
    }
}

/// Where the parts of the head lie that the text is, all of it.
fn parse_whole(text: &[u8], spans: &mut [HeaderSpan]) -> Option<RequestSpans>
    requires { length spans.old ≡ 128 }
    ensures found { IfSome result (CoversHead text.now spans.new) }
    ensures none { IfNone result ((tree : RequestHead) → ¬ (IsTree text.now tree)) }
{
    match parse_request(text, spans) {
        Ok(Status::Complete(found)) if found.len == text.len() => Some(found),
        _ => None,
    }
}

/// The fields that the spans cover in a text. It fails only for want of memory.
pub fn copy_fields(alloc: Global, text: &[u8], spans: &[HeaderSpan]) -> Result<Fields, AllocError>
    requires within { All (IsHeaderWithin (length text.now)) spans.now }
    requires names { All (HasTextName text.now) spans.now }
    ensures { IfOk result (λ fields. fields ≡ map (field_in text.now) spans.now) }
{
    let mut fields = Vec::with_capacity(alloc, spans.len())?;
    for span in spans {
        fields.push(Field {
            name: Text::from_utf8(alloc, span.name.of(text))?,
            value: Bytes::from_slice(alloc, span.value.of(text))?,
        })?;
    }
    Ok(Fields::from_vec(fields))
}

/// Reads the head that a text is, all of it, with at most 128 fields (RFC 9112, sections 3 and 5).
pub fn read_head(alloc: Global, text: &[u8]) -> Result<Head, HeadFault>
    ensures head { IfOk result (λ head. SaysHead text.now head) }
    ensures bad_head { result ≡ Err HeadFault.BadHead → (tree : RequestHead) → ¬ (IsTree text.now tree) }
    ensures bad_framing { (bodiless : Bool) → result ≡ Err (HeadFault.BadFraming bodiless)
        → (tree : RequestHead) × IsTree text.now tree × (framing_in tree ≡ None) × (is_bodiless tree.method ≡ bodiless) }
{
    let mut spans = [EMPTY_HEADER_SPAN; FIELD_LIMIT];
    let Some(found) = parse_whole(text, &mut spans) else {
        return Err(HeadFault::BadHead);
    };
    let fields = copy_fields(alloc, text, &spans[..found.headers])?;
    let Some(framing) = framing_of(found.version, &fields) else {
        let bodiless = found.method.of(text) == b"HEAD".as_slice();
        return Err(HeadFault::BadFraming { bodiless });
    };
    Ok(Head {
        method: Text::from_utf8(alloc, found.method.of(text))?,
        target: Bytes::from_slice(alloc, found.path.of(text))?,
        minor: found.version,
        fields,
        framing,
    })
}
