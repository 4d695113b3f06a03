//! The reply that lists the rows of a container, at the end of a buffer.
ghost use Rattle.std.specs.Prelude.{◌≡◌, ◌++◌, [], OnOk, IfOk, length};
ghost use Rattle.http_model.specs.Replies.{field_line, content_length_field, content_type_field, written_body};
ghost use Rattle.swift_reply.specs.declared.reply.SwiftReply.TheVariants.{Listed};
ghost use Rattle.swift_reply.specs.Replies.{listing_kind, rows_text, listing_text, reply_text};

use crate::bare::push_done;
use crate::fields::{push_closing, push_length};
use crate::head::{push_field, push_status};
use crate::{ListingForm, json_rows, plain_rows};
use http::StatusCode;
use http_model::ReplyForm;
use list_words::ListedRows;
use rgw_types::Bytes;
use std::alloc::{AllocError, Global};

/// The media type of a listing.
fn listing_kind(listing: ListingForm) -> &'static str
    ensures { result.now ≡ listing_kind listing }
{
    match listing {
        ListingForm::Plain => "text/plain; charset=utf-8",
        ListingForm::Json => "application/json; charset=utf-8",
    }
}

/// The rows as a text.
fn rows_text(alloc: Global, rows: &ListedRows, listing: ListingForm) -> Result<Bytes, AllocError>
    ensures { IfOk result (λ text. text ≡ rows_text (Listed rows.now listing)) }
{
    match listing {
        ListingForm::Plain => plain_rows(alloc, rows),
        ListingForm::Json => json_rows(alloc, rows),
    }
}

/// Adds the fields that tell the text of a listing.
fn push_text_fields(out: &mut Vec<u8>, len: usize, listing: ListingForm) -> Result<(), AllocError>
    ensures { OnOk result (out.new.items ≡ out.old.items
        ++ (field_line (content_length_field len) ++ field_line (content_type_field (listing_kind listing)))) }
{
    push_length(out, len as u64)?;
    push_field(out, "Content-Type", listing_kind(listing).as_bytes())
}

/// Adds the text of a listing, unless the reply has no body.
fn push_body(out: &mut Vec<u8>, text: &[u8], form: ReplyForm) -> Result<(), AllocError>
    ensures { OnOk result (out.new.items ≡ out.old.items ++ written_body form text.now) }
{
    if form.bodiless {
        return Ok(());
    }
    out.extend_from_slice(text)
}

/// Adds the reply with the text of a listing; without a byte it is a 204.
pub(crate) fn push_listing(
    out: &mut Vec<u8>,
    text: &[u8],
    listing: ListingForm,
    form: ReplyForm,
) -> Result<(), AllocError>
    ensures { OnOk result (out.new.items ≡ out.old.items ++ listing_text form listing text.now) }
{
    if text.is_empty() {
        return push_done(out, form);
    }
    push_status(out, StatusCode::OK)?;
    push_text_fields(out, text.len(), listing)?;
    push_closing(out, form)?;
    out.extend_from_slice(b"\r\n")?;
    push_body(out, text, form)
}

/// Adds the reply that lists the rows of a container.
#[tactic(auto, unfolding(crate::specs::Replies::reply_text))]
pub fn push_listed(
    alloc: Global,
    out: &mut Vec<u8>,
    rows: &ListedRows,
    listing: ListingForm,
    form: ReplyForm,
) -> Result<(), AllocError>
    ensures { OnOk result (out.new.items ≡ out.old.items ++ reply_text form (Listed rows.now listing) []) }
{
    let text = rows_text(alloc, rows, listing)?;
    push_listing(out, text.as_slice(), listing, form)
}
