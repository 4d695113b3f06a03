//! Single fields of replies, at the end of a buffer.
ghost use Rattle.std.specs.Prelude.{◌≡◌, ◌++◌, OnOk, decimal, flat_map};
ghost use Rattle.http_model.specs.Replies.{field_line, closing_fields, content_length_field, etag_field, last_modified_field};
ghost use Rattle.swift_reply.specs.Fields.{text_field, number_field, meta_fields};

use crate::head::push_field;
use date_words::date_text_of_micros;
use http_model::ReplyForm;
use rgw_types::{Pairs, Stamp, Text};
use std::alloc::AllocError;

/// Adds the digits of a number.
pub(crate) fn push_number(out: &mut Vec<u8>, n: u64) -> Result<(), AllocError>
    ensures { OnOk result (out.new.items ≡ out.old.items ++ decimal n) }
{
    let mut digits = itoa::Buffer::new();
    out.extend_from_slice(digits.format(n).as_bytes())
}

/// Adds a field that is a number.
pub(crate) fn push_number_field(out: &mut Vec<u8>, name: &str, n: u64) -> Result<(), AllocError>
    ensures { OnOk result (out.new.items ≡ out.old.items ++ field_line (number_field name.now n)) }
{
    let mut digits = itoa::Buffer::new();
    push_field(out, name, digits.format(n).as_bytes())
}

/// Adds `Content-Length`.
pub(crate) fn push_length(out: &mut Vec<u8>, len: u64) -> Result<(), AllocError>
    ensures { OnOk result (out.new.items ≡ out.old.items ++ field_line (content_length_field len)) }
{
    push_number_field(out, "Content-Length", len)
}

/// Adds `ETag`: the digest in hexadecimal digits.
pub(crate) fn push_etag(out: &mut Vec<u8>, etag: &[u8; 16]) -> Result<(), AllocError>
    ensures { OnOk result (out.new.items ≡ out.old.items ++ field_line (etag_field etag.now)) }
{
    let mut digits = [0; 32];
    if hex::encode_to_slice(etag.as_slice(), &mut digits).is_err() {
        unreachable!();
    }
    push_field(out, "ETag", &digits)
}

/// Adds `Last-Modified`: the whole second of a stamp.
pub(crate) fn push_modified(out: &mut Vec<u8>, stamp: Stamp) -> Result<(), AllocError>
    ensures { OnOk result (out.new.items ≡ out.old.items ++ field_line (last_modified_field stamp.micros)) }
{
    push_field(out, "Last-Modified", &date_text_of_micros(stamp.micros))
}

/// Adds the field of a pair of metadata, whose name begins with this front.
fn push_pair(out: &mut Vec<u8>, front: &str, pair: &(Text, Text)) -> Result<(), AllocError>
    ensures { OnOk result (out.new.items
        ≡ out.old.items ++ field_line (text_field (front.now ++ pair.now.0) pair.now.1)) }
{
    out.extend_from_slice(front.as_bytes())?;
    push_field(out, pair.0.as_str(), pair.1.as_bytes())
}

/// Adds a field for each pair of metadata, whose names begin with this front.
pub(crate) fn push_meta(out: &mut Vec<u8>, front: &str, meta: &Pairs) -> Result<(), AllocError>
    ensures { OnOk result (out.new.items
        ≡ out.old.items ++ flat_map field_line (meta_fields front.now meta.now)) }
{
    for pair in meta.as_slice() {
        push_pair(out, front, pair)?;
    }
    Ok(())
}

/// Adds `Connection: close`, where the connection is closed.
pub(crate) fn push_closing(out: &mut Vec<u8>, form: ReplyForm) -> Result<(), AllocError>
    ensures { OnOk result (out.new.items ≡ out.old.items ++ flat_map field_line (closing_fields form)) }
{
    if form.close {
        return push_field(out, "Connection", b"close");
    }
    Ok(())
}
