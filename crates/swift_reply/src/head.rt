//! Heads of replies (RFC 9112, sections 4 and 5).
ghost use Rattle.std.specs.Prelude.{◌≡◌, ◌++◌, IfOk, OnOk};
ghost use Rattle.http.specs.StatusCode.{IsStatusCode};
ghost use Rattle.http_model.specs.Replies.{phrase_of, status_line, field_line, head_text};

use http::StatusCode;
use http_model::ReplyHead;
use rgw_types::Bytes;
use std::alloc::{AllocError, Global};

/// The phrase of a status code.
#[tactic(auto, unfolding(http_model::specs::Replies::phrase_of))]
fn phrase(status: StatusCode) -> &'static str
    ensures { result.now ≡ phrase_of status }
{
    status.canonical_reason().unwrap_or("")
}

/// Adds a status line.
pub(crate) fn push_status(out: &mut Vec<u8>, status: StatusCode) -> Result<(), AllocError>
    ensures { OnOk result (out.new.items ≡ out.old.items ++ status_line status) }
{
    out.extend_from_slice(b"HTTP/1.1 ")?;
    out.extend_from_slice(status.as_str().as_bytes())?;
    out.extend_from_slice(b" ")?;
    out.extend_from_slice(phrase(status).as_bytes())?;
    out.extend_from_slice(b"\r\n")
}

/// Adds a field.
pub(crate) fn push_field(out: &mut Vec<u8>, name: &str, value: &[u8]) -> Result<(), AllocError>
    ensures { OnOk result (out.new.items ≡ out.old.items ++ field_line (record { name = name.now; value = value.now })) }
{
    out.extend_from_slice(name.as_bytes())?;
    out.extend_from_slice(b": ")?;
    out.extend_from_slice(value)?;
    out.extend_from_slice(b"\r\n")
}

/// The head of a reply: its status line, its fields in their order, and the empty line. The code has
/// three digits (RFC 9110, section 15).
#[tactic(auto, unfolding(http_model::specs::Replies::head_text))]
pub fn write_head(alloc: Global, head: &ReplyHead) -> Result<Bytes, AllocError>
    requires { IsStatusCode head.now.code }
    ensures { IfOk result (λ text. text ≡ head_text head.now) }
{
    let mut text = Vec::new(alloc);
    push_status(&mut text, StatusCode::from_u16(head.code).unwrap())?;
    for field in head.fields.as_slice() {
        push_field(&mut text, field.name.as_str(), field.value.as_slice())?;
    }
    text.extend_from_slice(b"\r\n")?;
    Ok(Bytes::from_vec(text))
}
