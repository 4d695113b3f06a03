//! Rows of listings that `swift_reply` writes.
use crate::listed;
use crate::timing::Timed;
use list_words::ListedRows;
use std::alloc::{AllocError, Global};
use std::rt::Clock;
use swift_reply::{AccountRows, json_accounts, json_rows, plain_accounts, plain_rows};

// How often each is measured. The fastest round counts.
const ROUNDS: u32 = 60;

// What is written.
#[derive(Drop)]
enum Listing {
    Json(ListedRows),
    Plain(ListedRows),
    JsonAccounts(AccountRows),
    PlainAccounts(AccountRows),
}

impl Listing {
    // How many bytes its text has.
    fn written(&self, alloc: Global) -> anyhow::Result<u64> {
        let text = match self {
            Listing::Json(rows) => json_rows(alloc, rows)?,
            Listing::Plain(rows) => plain_rows(alloc, rows)?,
            Listing::JsonAccounts(rows) => json_accounts(alloc, rows)?,
            Listing::PlainAccounts(rows) => plain_accounts(alloc, rows)?,
        };
        Ok(text.len() as u64)
    }
}

// Each kind with its name, of so many rows.
fn listings(alloc: Global, count: u32) -> Result<Vec<(&'static str, Listing)>, AllocError> {
    let mut all = Vec::new(alloc);
    all.push(("JSON", Listing::Json(listed::rows(alloc, count, false)?)))?;
    all.push((
        "JSON, names with escapes",
        Listing::Json(listed::rows(alloc, count, true)?),
    ))?;
    all.push(("plain", Listing::Plain(listed::rows(alloc, count, false)?)))?;
    all.push((
        "JSON of an account",
        Listing::JsonAccounts(listed::account_rows(alloc, count)?),
    ))?;
    all.push((
        "plain of an account",
        Listing::PlainAccounts(listed::account_rows(alloc, count)?),
    ))?;
    Ok(all)
}

/// Three rows of each kind.
pub fn show<R: Print>(rt: &R, alloc: Global) -> anyhow::Result<()> {
    for (name, listing) in listings(alloc, 3)?.as_slice() {
        println!(rt; "{name}: {} bytes", listing.written(alloc)?)?;
    }
    Ok(())
}

/// Listings of so many rows.
pub fn measure<R: Clock + Print>(rt: &R, alloc: Global, count: u32) -> anyhow::Result<()> {
    println!(rt; "      rows/s  bytes/row")?;
    for (name, listing) in listings(alloc, count)?.as_slice() {
        let fastest = time_rows(rt, alloc, listing)?;
        let bytes = fastest.count / u64::from(count.max(1));
        let rows = fastest.of(u64::from(count)).a_second();
        println!(rt; "{rows:>12}  {bytes:>9}  {name}")?;
    }
    Ok(())
}

// The bytes of a listing, in the fastest round.
fn time_rows<R: Clock>(rt: &R, alloc: Global, listing: &Listing) -> anyhow::Result<Timed> {
    let mut fastest = Timed::never();
    for _ in 0..ROUNDS {
        fastest.round(rt, || listing.written(alloc))?;
    }
    Ok(fastest)
}
