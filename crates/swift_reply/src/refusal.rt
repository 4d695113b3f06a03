//! Refusals, at the end of a buffer.
ghost use Rattle.std.specs.Prelude.{◌≡◌, ◌++◌, ◌+◌, ◌<◌, ◌≤◌, [], OnOk, codes, decimal, flat_map, length};
ghost use Rattle.http_model.specs.Replies.{field_line, content_length_field, content_type_field, line_kind, line_body, written_body};
ghost use Rattle.swift_reply.specs.declared.reply.SwiftReply.TheVariants.{Refused};
ghost use Rattle.swift_reply.specs.Fields.{no_range_field, methods_of};
ghost use Rattle.swift_reply.specs.Replies.{refusal_code, refusal_front, refusal_rest, refusal_line, own_fields, invalid_word, denial_word, reply_text};

use crate::fields::{push_closing, push_length, push_number};
use crate::head::{push_field, push_status};
use crate::{Denial, Invalid, SwiftRefusal, TargetKind};
use http::StatusCode;
use http_model::ReplyForm;
use object_words::ObjectName;
use std::alloc::AllocError;

/// The code of a refusal.
fn status_of(refusal: &SwiftRefusal) -> StatusCode
    ensures { result ≡ refusal_code refusal.now }
{
    match refusal {
        SwiftRefusal::Invalid(_) => StatusCode::BAD_REQUEST,
        SwiftRefusal::Unauthorized => StatusCode::UNAUTHORIZED,
        SwiftRefusal::Denied(_) => StatusCode::FORBIDDEN,
        SwiftRefusal::NoPath | SwiftRefusal::NoContainer | SwiftRefusal::NoObject => {
            StatusCode::NOT_FOUND
        }
        SwiftRefusal::NoMethod(_) => StatusCode::METHOD_NOT_ALLOWED,
        SwiftRefusal::NotYours | SwiftRefusal::NotEmpty { .. } | SwiftRefusal::Unsettled { .. } =>
            StatusCode::CONFLICT,
        SwiftRefusal::NoLength => StatusCode::LENGTH_REQUIRED,
        SwiftRefusal::NotMet => StatusCode::PRECONDITION_FAILED,
        SwiftRefusal::TooLarge => StatusCode::PAYLOAD_TOO_LARGE,
        SwiftRefusal::TargetTooLong => StatusCode::URI_TOO_LONG,
        SwiftRefusal::NoRange { .. } => StatusCode::RANGE_NOT_SATISFIABLE,
        SwiftRefusal::OtherEtag => StatusCode::UNPROCESSABLE_ENTITY,
        SwiftRefusal::NotBuilt => StatusCode::NOT_IMPLEMENTED,
        SwiftRefusal::Busy { .. }
        | SwiftRefusal::MovedOften
        | SwiftRefusal::RacedOften
        | SwiftRefusal::LateTag
        | SwiftRefusal::LateRead => StatusCode::SERVICE_UNAVAILABLE,
        SwiftRefusal::NoSpace { .. } => StatusCode::INSUFFICIENT_STORAGE,
    }
}

/// What the lines of all refusals of a kind begin with.
fn front(refusal: &SwiftRefusal) -> &'static str
    ensures text { result.now ≡ refusal_front refusal.now }
    ensures short { length result.now < 100 }
{
    match refusal {
        SwiftRefusal::Invalid(_) => "Bad request: ",
        SwiftRefusal::Unauthorized => "Unauthorized",
        SwiftRefusal::Denied(_) => "Denied: ",
        SwiftRefusal::NoPath => "No such path",
        SwiftRefusal::NoContainer => "No such container",
        SwiftRefusal::NoObject => "No such object",
        SwiftRefusal::NoMethod(_) => "Method not allowed",
        SwiftRefusal::NotYours => "Not yours",
        SwiftRefusal::NotEmpty { .. } => "Not empty: ",
        SwiftRefusal::Unsettled { .. } => "Unsettled: ",
        SwiftRefusal::NoLength => "Length required",
        SwiftRefusal::NotMet => "Precondition failed",
        SwiftRefusal::TooLarge => "Too large",
        SwiftRefusal::TargetTooLong => "Target too long",
        SwiftRefusal::NoRange { .. } => "Range not satisfiable",
        SwiftRefusal::OtherEtag => "ETag mismatch",
        SwiftRefusal::NotBuilt => "Not built",
        SwiftRefusal::Busy { .. } => "Busy: ",
        SwiftRefusal::MovedOften => "Moved often",
        SwiftRefusal::RacedOften => "Raced often",
        SwiftRefusal::LateTag => "Late: tag",
        SwiftRefusal::LateRead => "Late: read",
        SwiftRefusal::NoSpace { .. } => "No space: ",
    }
}

/// The word of a 400 whose head was read.
fn invalid_word(what: Invalid) -> &'static str
    ensures text { result.now ≡ invalid_word what }
    ensures short { length result.now < 100 }
{
    match what {
        Invalid::Chunk => "chunk",
        Invalid::Target => "target",
        Invalid::Escape => "escape",
        Invalid::Utf8 => "utf8",
        Invalid::Name => "name",
        Invalid::Limit => "limit",
        Invalid::Format => "format",
        Invalid::Value => "value",
        Invalid::Meta => "meta",
        Invalid::Copy => "copy",
        Invalid::Expiry => "expiry",
    }
}

/// The rule of a denial.
fn denial_word(denial: Denial) -> &'static str
    ensures text { result.now ≡ denial_word denial }
    ensures short { length result.now < 100 }
{
    match denial {
        Denial::Account => "account",
        Denial::Read => "read",
        Denial::Write => "write",
    }
}

/// How many digits a number has.
fn digit_count(n: u64) -> usize
    ensures count { result ≡ length (decimal n) }
    ensures short { result ≤ 40 }
{
    let mut digits = itoa::Buffer::new();
    digits.format(n).len()
}

/// How many bytes follow the front of a refusal's line.
fn rest_len(refusal: &SwiftRefusal) -> usize
    ensures count { result ≡ length (refusal_rest refusal.now) }
    ensures short { result < 2000 }
{
    match refusal {
        SwiftRefusal::Invalid(what) => invalid_word(*what).len(),
        SwiftRefusal::Denied(denial) => denial_word(*denial).len(),
        SwiftRefusal::NotEmpty { name } => name_len(name),
        SwiftRefusal::Unsettled { name } => name_len(name),
        SwiftRefusal::Busy { id } => digit_count(*id),
        SwiftRefusal::NoSpace { free, needed } => space_len(*free, *needed),
        _ => 0,
    }
}

fn name_len(name: &ObjectName) -> usize
    ensures count { result ≡ length name.now }
    ensures short { result ≤ 1024 }
{
    name.as_text().len()
}

fn space_len(free: u32, needed: u32) -> usize
    ensures count { result ≡ length (decimal free ++ codes " of " ++ decimal needed) }
    ensures short { result ≤ 84 }
{
    digit_count(u64::from(free)) + 4 + digit_count(u64::from(needed))
}

fn push_space(out: &mut Vec<u8>, free: u32, needed: u32) -> Result<(), AllocError>
    ensures { OnOk result (out.new.items ≡ out.old.items ++ (decimal free ++ codes " of " ++ decimal needed)) }
{
    push_number(out, u64::from(free))?;
    out.extend_from_slice(b" of ")?;
    push_number(out, u64::from(needed))
}

/// Adds what follows the front of a refusal's line.
fn push_rest(out: &mut Vec<u8>, refusal: &SwiftRefusal) -> Result<(), AllocError>
    ensures { OnOk result (out.new.items ≡ out.old.items ++ refusal_rest refusal.now) }
{
    match refusal {
        SwiftRefusal::Invalid(what) => out.extend_from_slice(invalid_word(*what).as_bytes()),
        SwiftRefusal::Denied(denial) => out.extend_from_slice(denial_word(*denial).as_bytes()),
        SwiftRefusal::NotEmpty { name } => out.extend_from_slice(name.as_text().as_bytes()),
        SwiftRefusal::Unsettled { name } => out.extend_from_slice(name.as_text().as_bytes()),
        SwiftRefusal::Busy { id } => push_number(out, *id),
        SwiftRefusal::NoSpace { free, needed } => push_space(out, *free, *needed),
        _ => Ok(()),
    }
}

/// The methods of a target.
fn methods(target: TargetKind) -> &'static str
    ensures { result.now ≡ methods_of target }
{
    match target {
        TargetKind::Auth => "GET",
        TargetKind::Account => "GET, HEAD",
        TargetKind::Container => "GET, HEAD, PUT, POST, DELETE",
        TargetKind::Object => "GET, HEAD, PUT, POST, DELETE, COPY",
    }
}

/// Adds `Content-Range` with the size of the object, for a range behind it.
fn push_no_range(out: &mut Vec<u8>, size: u64) -> Result<(), AllocError>
    ensures { OnOk result (out.new.items ≡ out.old.items ++ field_line (no_range_field size)) }
{
    out.extend_from_slice(b"Content-Range: bytes */")?;
    push_number(out, size)?;
    out.extend_from_slice(b"\r\n")
}

/// Adds what three refusals say beside their line.
fn push_own_field(out: &mut Vec<u8>, refusal: &SwiftRefusal) -> Result<(), AllocError>
    ensures { OnOk result (out.new.items ≡ out.old.items ++ flat_map field_line (own_fields refusal.now)) }
{
    match refusal {
        SwiftRefusal::NoRange { size } => push_no_range(out, *size),
        SwiftRefusal::NoMethod(target) => push_field(out, "Allow", methods(*target).as_bytes()),
        SwiftRefusal::Unauthorized => push_field(out, "WWW-Authenticate", b"Swift realm=\"rgw\""),
        _ => Ok(()),
    }
}

/// Adds the fields that tell a body of one line.
pub(crate) fn push_line_fields(out: &mut Vec<u8>, len: usize) -> Result<(), AllocError>
    requires { len < 3000 }
    ensures { OnOk result (out.new.items ≡ out.old.items
        ++ (field_line (content_length_field (len + 1)) ++ field_line (content_type_field line_kind))) }
{
    push_length(out, len as u64 + 1)?;
    push_field(out, "Content-Type", b"text/plain; charset=utf-8")
}

/// Adds the line of a refusal, unless the reply has no body.
fn push_line(out: &mut Vec<u8>, refusal: &SwiftRefusal, form: ReplyForm) -> Result<(), AllocError>
    ensures { OnOk result (out.new.items
        ≡ out.old.items ++ written_body form (line_body (refusal_line refusal.now))) }
{
    if form.bodiless {
        return Ok(());
    }
    out.extend_from_slice(front(refusal).as_bytes())?;
    push_rest(out, refusal)?;
    out.extend_from_slice(b"\n")
}

/// Adds a refusal.
pub fn push_refusal(
    out: &mut Vec<u8>,
    refusal: &SwiftRefusal,
    form: ReplyForm,
) -> Result<(), AllocError>
    ensures { OnOk result (out.new.items ≡ out.old.items ++ reply_text form (Refused refusal.now) []) }
{
    push_status(out, status_of(refusal))?;
    push_line_fields(out, front(refusal).len() + rest_len(refusal))?;
    push_own_field(out, refusal)?;
    push_closing(out, form)?;
    out.extend_from_slice(b"\r\n")?;
    push_line(out, refusal, form)?;
    Ok(())
}
