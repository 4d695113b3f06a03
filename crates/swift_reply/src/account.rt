//! An account's listing as JSON (RFC 8259), written as that of a container is, and the replies to
//! requests of accounts, at the end of a buffer.
ghost use Rattle.std.specs.Prelude.{◌≡◌, ◌++◌, [], IfOk, OnOk};
ghost use Rattle.json.specs.Tree.{json_tokens};
ghost use Rattle.serde_json.specs.Written.{outline};
ghost use Rattle.swift_reply.specs.declared.reply.SwiftReply.TheVariants.{AccountListed, AccountCounted};
ghost use Rattle.swift_reply.specs.Listings.{container_data, account_row_data, json_account_text};
ghost use Rattle.swift_reply.specs.Replies.{rows_text, reply_text};

use crate::fields::{push_closing, push_number_field};
use crate::head::push_status;
use crate::listed::push_listing;
use crate::listing::{push_number, push_subdir, push_text};
use crate::plain::plain_accounts;
use crate::{AccountRow, AccountRows, ListingForm};
use http::StatusCode;
use http_model::ReplyForm;
use json::Writer;
use rgw_types::Bytes;
use std::alloc::{AllocError, Global};

/// Adds the row of a container. The members come by rising name.
fn push_container(out: &mut Writer, name: &str, count: u64, bytes: u64) -> Result<(), AllocError>
    ensures ok { OnOk result (out.new.tokens
        ≡ out.old.tokens ++ json_tokens (outline (container_data name.now count bytes))) }
    ensures before { out.new.before ≡ out.old.before }
{
    out.begin_object()?;
    push_number(out, "bytes", bytes)?;
    push_number(out, "count", count)?;
    push_text(out, "name", name)?;
    out.end_object()
}

fn push_account_row(out: &mut Writer, row: &AccountRow) -> Result<(), AllocError>
    ensures ok { OnOk result (out.new.tokens
        ≡ out.old.tokens ++ json_tokens (outline (account_row_data row.now))) }
    ensures before { out.new.before ≡ out.old.before }
{
    if row.subdir {
        push_subdir(out, row.name.as_str())
    } else {
        push_container(out, row.name.as_str(), row.count, row.bytes)
    }
}

/// An account's listing as JSON: one array, an object for each row.
pub fn json_accounts(alloc: Global, rows: &AccountRows) -> Result<Bytes, AllocError>
    ensures { IfOk result (λ text. text ≡ json_account_text rows.now) }
{
    let mut out = Writer::new(Vec::new(alloc));
    out.begin_array()?;
    for row in rows.as_slice() {
        push_account_row(&mut out, row)?;
    }
    out.end_array()?;
    Ok(Bytes::from_vec(out.into_inner()))
}

/// The rows as a text.
fn accounts_text(
    alloc: Global,
    rows: &AccountRows,
    listing: ListingForm,
) -> Result<Bytes, AllocError>
    ensures { IfOk result (λ text. text ≡ rows_text (AccountListed rows.now listing)) }
{
    match listing {
        ListingForm::Plain => plain_accounts(alloc, rows),
        ListingForm::Json => json_accounts(alloc, rows),
    }
}

/// Adds the reply that lists the containers of an account.
#[tactic(auto, unfolding(crate::specs::Replies::reply_text))]
pub fn push_account_listed(
    alloc: Global,
    out: &mut Vec<u8>,
    rows: &AccountRows,
    listing: ListingForm,
    form: ReplyForm,
) -> Result<(), AllocError>
    ensures { OnOk result (out.new.items
        ≡ out.old.items ++ reply_text form (AccountListed rows.now listing) []) }
{
    let text = accounts_text(alloc, rows, listing)?;
    push_listing(out, text.as_slice(), listing, form)
}

/// Adds the reply that counts the containers of an account, their objects and the bytes of these.
pub fn push_account_counted(
    out: &mut Vec<u8>,
    containers: u64,
    objects: u64,
    bytes: u64,
    form: ReplyForm,
) -> Result<(), AllocError>
    ensures { OnOk result (out.new.items
        ≡ out.old.items ++ reply_text form (AccountCounted containers objects bytes) []) }
{
    push_status(out, StatusCode::NO_CONTENT)?;
    push_number_field(out, "X-Account-Container-Count", containers)?;
    push_number_field(out, "X-Account-Object-Count", objects)?;
    push_number_field(out, "X-Account-Bytes-Used", bytes)?;
    push_closing(out, form)?;
    out.extend_from_slice(b"\r\n")?;
    Ok(())
}
