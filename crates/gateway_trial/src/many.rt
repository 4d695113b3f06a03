//! A container with one name more than a listing has rows at most.
use crate::host::{many, realm_with_box, replies};
use anyhow::Context;
use realm_stage::RealmStage;
use std::alloc::Global;
use std::str;

/// The names are `n00000` to `n10000`.
const NAMES: u32 = 10_001;

/// Each has so many bytes.
const NAME_BYTES: usize = 6;

const LISTINGS: &[&[u8]] = &[
    b"GET /swift/v1/AUTH_acme/box?limit=10000 HTTP/1.1\r\nHost: h\r\nX-Auth-Token: AUTH_tk1\r\n\r\n",
    b"GET /swift/v1/AUTH_acme/box?marker=n09999 HTTP/1.1\r\nHost: h\r\nX-Auth-Token: AUTH_tk1\r\n\r\n",
];

/// The requests that put one byte under each name.
fn puts(alloc: Global) -> anyhow::Result<Vec<u8>> {
    let mut bytes = Vec::new(alloc);
    for number in 0..NAMES {
        let put = format!(in alloc;
            "PUT /swift/v1/AUTH_acme/box/n{number:05} HTTP/1.1\r\nHost: h\r\nX-Auth-Token: AUTH_tk1\r\nContent-Length: 1\r\n\r\nx"
        )?;
        bytes.extend_from_slice(put.as_bytes())?;
    }
    Ok(bytes)
}

/// Serves a listing, and prints the head of its reply, how many rows it has, and the last of them.
fn list<R: Print>(
    rt: &R,
    alloc: Global,
    stage: &mut RealmStage,
    request: &[u8],
) -> anyhow::Result<()> {
    let (written, _) = replies(alloc, stage, request)?;
    let text = str::from_utf8(&written).context("a listing in UTF-8")?;
    let (head, rows) = text.split_once("\r\n\r\n").context("a reply with a head")?;
    let rows = rows.as_bytes();
    let mut count = 0_u32;
    for byte in rows {
        if *byte == b'\n' {
            count = count.saturating_add(1);
        }
    }
    let from = rows.len().saturating_sub(NAME_BYTES + 1);
    let last = str::from_utf8(&rows[from..]).context("a name in UTF-8")?;
    println!(rt; "{head}")?;
    print!(rt; "-- {count} rows, the last {last}")?;
    Ok(())
}

/// Puts all names, and lists them in two pages.
pub fn list_many<R: Print>(rt: &R, alloc: Global) -> anyhow::Result<()> {
    println!(rt; "== more names than one listing has")?;
    let settings = many(NAMES)?;
    let mut stage = realm_with_box(alloc, &settings)?;
    let (_, served) = replies(alloc, &mut stage, &puts(alloc)?)?;
    let requests = served.requests;
    let end = served.end;
    println!(rt; "-- {requests} replies, {end:?}")?;
    for request in LISTINGS {
        list(rt, alloc, &mut stage, request)?;
    }
    Ok(())
}
