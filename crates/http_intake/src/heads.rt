// What the text of a head says, by a parser that writes where its fields are.
ghost use Rattle.std.specs.Prelude.{◌≡◌, ◌≤◌, IfOk, IfSome, Bool, length};
ghost use Rattle.httparse.specs.Grammar.{RequestHead};
ghost use Rattle.http_model.specs.Heads.{IsTree, SaysHead, framing_in};
ghost use Rattle.http_model.specs.Forms.{is_bodiless};
ghost use Rattle.http_model.specs.HeadSpans.{CoversHead};
ghost use Rattle.http_model.specs.declared.reading.TheConstants.{FIELD_LIMIT};

use http_model::{Head, HeadFault, copy_fields, framing_of};
use httparse::Status;
use httparse::spans::{EMPTY_HEADER_SPAN, HeaderSpan, RequestSpans, parse_request};
use rgw_types::{Bytes, Text};
use std::alloc::{AllocError, Global};

/// Most heads have no more fields than this. Only so many places are cleared for each head, and
/// those for all that a head may have only where these are too few.
const FEW_FIELDS: usize = 16;

/// Where the parts of the head lie that the text is, all of it; none also where its fields are more
/// than the places.
fn parse_whole(text: &[u8], spans: &mut [HeaderSpan]) -> Option<RequestSpans>
    requires { length spans.old ≤ FIELD_LIMIT }
    ensures { IfSome result (CoversHead text.now spans.new) }
{
    match parse_request(text, spans) {
        Ok(Status::Complete(found)) if found.len == text.len() => Some(found),
        _ => None,
    }
}

/// Reads the head that a text is, all of it, where its fields are few and tell the framing.
fn read_small_head(alloc: Global, text: &[u8]) -> Result<Option<Head>, AllocError>
    ensures { IfOk result (λ head. IfSome head (SaysHead text.now)) }
{
    let mut spans = [EMPTY_HEADER_SPAN; FEW_FIELDS];
    let Some(found) = parse_whole(text, &mut spans) else {
        return Ok(None);
    };
    let fields = copy_fields(alloc, text, &spans[..found.headers])?;
    let Some(framing) = framing_of(found.version, &fields) else {
        return Ok(None);
    };
    Ok(Some(Head {
        method: Text::from_utf8(alloc, found.method.of(text))?,
        target: Bytes::from_slice(alloc, found.path.of(text))?,
        minor: found.version,
        fields,
        framing,
    }))
}

/// Reads the head that a text is, all of it, as `http_model` does, but sooner where its fields are
/// few.
pub(crate) fn read_head(alloc: Global, text: &[u8]) -> Result<Head, HeadFault>
    ensures head { IfOk result (λ head. SaysHead text.now head) }
    ensures bad_head { result ≡ Err HeadFault.BadHead → (tree : RequestHead) → ¬ (IsTree text.now tree) }
    ensures bad_framing { (bodiless : Bool) → result ≡ Err (HeadFault.BadFraming bodiless)
        → (tree : RequestHead) × IsTree text.now tree × (framing_in tree ≡ None) × (is_bodiless tree.method ≡ bodiless) }
{
    match read_small_head(alloc, text)? {
        Some(head) => Ok(head),
        None => http_model::read_head(alloc, text),
    }
}
