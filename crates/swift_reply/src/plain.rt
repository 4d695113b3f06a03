//! Plain listings: each key with a line feed after it.
ghost use Rattle.std.specs.Prelude.{◌≡◌, IfOk};
ghost use Rattle.swift_reply.specs.Listings.{plain_text, plain_account_text};

use crate::AccountRows;
use list_words::ListedRows;
use rgw_types::Bytes;
use std::alloc::{AllocError, Global};

/// A container's plain listing. No rows have no bytes.
pub fn plain_rows(alloc: Global, rows: &ListedRows) -> Result<Bytes, AllocError>
    ensures { IfOk result (λ text. text ≡ plain_text rows.now) }
{
    let mut text = Vec::new(alloc);
    for row in rows.as_slice() {
        text.extend_from_slice(row.key().as_bytes())?;
        text.push(b'\n')?;
    }
    Ok(Bytes::from_vec(text))
}

/// An account's plain listing. No rows have no bytes.
pub fn plain_accounts(alloc: Global, rows: &AccountRows) -> Result<Bytes, AllocError>
    ensures { IfOk result (λ text. text ≡ plain_account_text rows.now) }
{
    let mut text = Vec::new(alloc);
    for row in rows.as_slice() {
        text.extend_from_slice(row.name.as_bytes())?;
        text.push(b'\n')?;
    }
    Ok(Bytes::from_vec(text))
}
