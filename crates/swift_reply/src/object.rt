//! Replies to requests for objects, at the end of a buffer.
ghost use Rattle.std.specs.Prelude.{◌≡◌, ◌+◌, ◌-◌, ◌++◌, [], OnOk, Some, None, decimal, codes, flat_map};
ghost use Rattle.http_model.specs.Replies.{crlf, field_line, closing_fields, content_length_field, content_type_field, etag_field, last_modified_field, accept_ranges_field, head_text};
ghost use Rattle.swift_reply.specs.declared.reply.SwiftReply.TheVariants.{Stored, Same, Shown};
ghost use Rattle.swift_reply.specs.Fields.{content_range_field, meta_fields};
ghost use Rattle.swift_reply.specs.Replies.{reply_head, reply_text};

use crate::ShownSpan;
use crate::fields::{push_closing, push_etag, push_length, push_meta, push_modified, push_number};
use crate::head::{push_field, push_status};
use http::StatusCode;
use http_model::ReplyForm;
use rgw_types::{Pairs, Stamp, Text};
use std::alloc::AllocError;

/// Adds the reply to a request that stored an object.
pub fn push_stored(
    out: &mut Vec<u8>,
    etag: &[u8; 16],
    stamp: Stamp,
    form: ReplyForm,
) -> Result<(), AllocError>
    ensures { OnOk result (out.new.items ≡ out.old.items ++ reply_text form (Stored etag.now stamp) []) }
{
    push_status(out, StatusCode::CREATED)?;
    push_length(out, 0)?;
    push_etag(out, etag)?;
    push_modified(out, stamp)?;
    push_closing(out, form)?;
    out.extend_from_slice(b"\r\n")?;
    Ok(())
}

/// Adds the fields with which each reply that shows an object begins: how many bytes are shown, the type,
/// the digest, the stamp, and that ranges are taken.
fn push_object_fields(
    out: &mut Vec<u8>,
    len: u64,
    kind: &Text,
    etag: &[u8; 16],
    stamp: Stamp,
) -> Result<(), AllocError>
    ensures { OnOk result (out.new.items ≡ out.old.items
        ++ (field_line (content_length_field len) ++ (field_line (content_type_field kind.now)
        ++ (field_line (etag_field etag.now) ++ (field_line (last_modified_field stamp.micros)
        ++ field_line accept_ranges_field))))) }
{
    push_length(out, len)?;
    push_field(out, "Content-Type", kind.as_bytes())?;
    push_etag(out, etag)?;
    push_modified(out, stamp)?;
    push_field(out, "Accept-Ranges", b"bytes")?;
    Ok(())
}

/// Adds the metadata of an object, and ends the head of its reply.
fn push_object_end(out: &mut Vec<u8>, meta: &Pairs, form: ReplyForm) -> Result<(), AllocError>
    ensures { OnOk result (out.new.items ≡ out.old.items
        ++ (flat_map field_line (meta_fields (codes "X-Object-Meta-") meta.now ++ closing_fields form) ++ crlf)) }
{
    push_meta(out, "X-Object-Meta-", meta)?;
    push_closing(out, form)?;
    out.extend_from_slice(b"\r\n")?;
    Ok(())
}

/// Adds the head of the reply that shows an object of `size` bytes whole. The bytes follow it.
pub fn push_shown_head(
    out: &mut Vec<u8>,
    kind: &Text,
    meta: &Pairs,
    etag: &[u8; 16],
    stamp: Stamp,
    size: u64,
    form: ReplyForm,
) -> Result<(), AllocError>
    ensures { OnOk result (out.new.items ≡ out.old.items ++ head_text (reply_head form (Shown (record {
      kind = kind.now;
      meta = meta.now;
      etag = etag.now;
      stamp = stamp;
      size = size;
      expires = None;
    }) None))) }
{
    push_status(out, StatusCode::OK)?;
    push_object_fields(out, size, kind, etag, stamp)?;
    push_object_end(out, meta, form)?;
    Ok(())
}

/// Adds the reply that the object is the one that the client has.
pub fn push_same(
    out: &mut Vec<u8>,
    etag: &[u8; 16],
    stamp: Stamp,
    form: ReplyForm,
) -> Result<(), AllocError>
    ensures { OnOk result (out.new.items ≡ out.old.items ++ reply_text form (Same etag.now stamp) []) }
{
    push_status(out, StatusCode::NOT_MODIFIED)?;
    push_etag(out, etag)?;
    push_modified(out, stamp)?;
    push_closing(out, form)?;
    out.extend_from_slice(b"\r\n")?;
    Ok(())
}

/// Adds the number of the last byte of a span.
fn push_last(out: &mut Vec<u8>, span: ShownSpan) -> Result<(), AllocError>
    ensures { OnOk result (out.new.items ≡ out.old.items ++ decimal (span.start + span.count - 1)) }
{
    let end = u128::from(span.start) + u128::from(span.count);
    let mut digits = itoa::Buffer::new();
    out.extend_from_slice(digits.format(end.saturating_sub(1)).as_bytes())
}

/// Adds `Content-Range`: the first and the last byte of a span, and the size of the object
/// (RFC 9110, section 14.4).
fn push_content_range(out: &mut Vec<u8>, span: ShownSpan, size: u64) -> Result<(), AllocError>
    ensures { OnOk result (out.new.items ≡ out.old.items ++ field_line (content_range_field span size)) }
{
    out.extend_from_slice(b"Content-Range: bytes ")?;
    push_number(out, span.start)?;
    out.extend_from_slice(b"-")?;
    push_last(out, span)?;
    out.extend_from_slice(b"/")?;
    push_number(out, size)?;
    out.extend_from_slice(b"\r\n")
}

/// Adds the head of the reply that shows a span of an object of `size` bytes. The bytes follow it.
pub fn push_span_head(
    out: &mut Vec<u8>,
    kind: &Text,
    meta: &Pairs,
    etag: &[u8; 16],
    stamp: Stamp,
    size: u64,
    span: ShownSpan,
    form: ReplyForm,
) -> Result<(), AllocError>
    ensures { OnOk result (out.new.items ≡ out.old.items ++ head_text (reply_head form (Shown (record {
      kind = kind.now;
      meta = meta.now;
      etag = etag.now;
      stamp = stamp;
      size = size;
      expires = None;
    }) (Some span)))) }
{
    push_status(out, StatusCode::PARTIAL_CONTENT)?;
    push_object_fields(out, span.count, kind, etag, stamp)?;
    push_content_range(out, span, size)?;
    push_object_end(out, meta, form)?;
    Ok(())
}
