//! A container's listing as JSON (RFC 8259), written token by token with one writer for all rows.
ghost use Rattle.std.specs.Prelude.{◌≡◌, ◌∷◌, [], ◌++◌, IfOk, OnOk, decimal};
ghost use Rattle.std.specs.Str.{IsAscii};
ghost use Rattle.hex.specs.Hex.{encode_lower};
ghost use Rattle.json.specs.Token.{key, string, number};
ghost use Rattle.json.specs.Tree.{json_tokens};
ghost use Rattle.serde_json.specs.Written.{outline};
ghost use Rattle.swift_reply.specs.Listings.{thing_data, subdir_data, row_data, json_text};

use crate::moment::moment_digits;
use json::Writer;
use list_words::{ListedRow, ListedRows, ListedThing};
use rgw_types::Bytes;
use std::alloc::{AllocError, Global};

/// Adds a member that is a text.
#[inline(always)]
pub(crate) fn push_text(out: &mut Writer, name: &str, text: &str) -> Result<(), AllocError>
    ensures ok { OnOk result (out.new.tokens ≡ out.old.tokens ++ key name.now ∷ string text.now ∷ []) }
    ensures before { out.new.before ≡ out.old.before }
{
    out.key(name)?;
    out.string(text)
}

/// Adds a member that is a number.
#[inline(always)]
pub(crate) fn push_number(out: &mut Writer, name: &str, n: u64) -> Result<(), AllocError>
    ensures ok { OnOk result (out.new.tokens ≡ out.old.tokens ++ key name.now ∷ number (decimal n) ∷ []) }
    ensures before { out.new.before ≡ out.old.before }
{
    out.key(name)?;
    out.u64(n)
}

/// Bytes below 128 as a text.
#[inline(always)]
fn text_of(bytes: &[u8]) -> &str
    requires { IsAscii bytes.now }
    ensures { result.now ≡ bytes.now }
{
    str::from_utf8(bytes).unwrap()
}

/// A digest in hexadecimal digits.
#[inline]
fn hash_digits(etag: &[u8; 16]) -> [u8; 32]
    ensures text { result ≡ encode_lower etag.now }
    ensures ascii { IsAscii result }
{
    let mut digits = [0; 32];
    if hex::encode_to_slice(etag.as_slice(), &mut digits).is_err() {
        unreachable!();
    }
    digits
}

/// Adds the row of an object. The members come by rising name.
fn push_thing(out: &mut Writer, name: &str, thing: &ListedThing) -> Result<(), AllocError>
    ensures ok { OnOk result (out.new.tokens
        ≡ out.old.tokens ++ json_tokens (outline (thing_data name.now thing.now))) }
    ensures before { out.new.before ≡ out.old.before }
{
    let hash = hash_digits(&thing.etag);
    let moment = moment_digits(thing.stamp.micros);
    out.begin_object()?;
    push_number(out, "bytes", thing.size)?;
    push_text(out, "content_type", thing.kind.as_text().as_str())?;
    push_text(out, "hash", text_of(&hash))?;
    push_text(out, "last_modified", text_of(&moment))?;
    push_text(out, "name", name)?;
    out.end_object()
}

/// Adds the row of a front that names have in common.
pub(crate) fn push_subdir(out: &mut Writer, key: &str) -> Result<(), AllocError>
    ensures ok { OnOk result (out.new.tokens
        ≡ out.old.tokens ++ json_tokens (outline (subdir_data key.now))) }
    ensures before { out.new.before ≡ out.old.before }
{
    out.begin_object()?;
    push_text(out, "subdir", key)?;
    out.end_object()
}

fn push_row(out: &mut Writer, row: &ListedRow) -> Result<(), AllocError>
    ensures ok { OnOk result (out.new.tokens
        ≡ out.old.tokens ++ json_tokens (outline (row_data row.now))) }
    ensures before { out.new.before ≡ out.old.before }
{
    match row {
        ListedRow::Thing(name, thing) => push_thing(out, name.as_text().as_str(), thing),
        ListedRow::Subdir(key) => push_subdir(out, key.as_str()),
    }
}

/// A container's listing as JSON: one array, an object for each row.
pub fn json_rows(alloc: Global, rows: &ListedRows) -> Result<Bytes, AllocError>
    ensures { IfOk result (λ text. text ≡ json_text rows.now) }
{
    let mut out = Writer::new(Vec::new(alloc));
    out.begin_array()?;
    for row in rows.as_slice() {
        push_row(&mut out, row)?;
    }
    out.end_array()?;
    Ok(Bytes::from_vec(out.into_inner()))
}
