//! The 400 for what is no request, at the end of a buffer.
ghost use Rattle.std.specs.Prelude.{◌≡◌, ◌++◌, ◌<◌, OnOk, length};
ghost use Rattle.http_model.specs.Replies.{line_body, written_body, word_of, bad_request_line, bad_request_text};

use crate::fields::push_closing;
use crate::head::push_status;
use crate::refusal::push_line_fields;
use http::StatusCode;
use http_model::{BadRequest, ReplyForm};
use std::alloc::AllocError;

/// The word of a 400.
fn word_of(fault: BadRequest) -> &'static str
    ensures text { result.now ≡ word_of fault }
    ensures short { length result.now < 100 }
{
    match fault {
        BadRequest::Head => "head",
        BadRequest::Size => "size",
        BadRequest::Framing => "framing",
        BadRequest::Host => "host",
    }
}

/// Adds the line, unless the reply has no body.
fn push_word(out: &mut Vec<u8>, front: &str, word: &str, form: ReplyForm) -> Result<(), AllocError>
    ensures { OnOk result (out.new.items
        ≡ out.old.items ++ written_body form (line_body (front.now ++ word.now))) }
{
    if form.bodiless {
        return Ok(());
    }
    out.extend_from_slice(front.as_bytes())?;
    out.extend_from_slice(word.as_bytes())?;
    out.extend_from_slice(b"\n")
}

/// Adds the 400 for what is no request.
pub fn push_bad_request(
    out: &mut Vec<u8>,
    fault: BadRequest,
    form: ReplyForm,
) -> Result<(), AllocError>
    ensures { OnOk result (out.new.items ≡ out.old.items ++ bad_request_text form fault) }
{
    let word = word_of(fault);
    push_status(out, StatusCode::BAD_REQUEST)?;
    push_line_fields(out, 13 + word.len())?;
    push_closing(out, form)?;
    out.extend_from_slice(b"\r\n")?;
    push_word(out, "Bad request: ", word, form)?;
    Ok(())
}
