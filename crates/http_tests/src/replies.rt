use http_model::{BadRequest, Field, Fields, ReplyForm, ReplyHead};
use list_words::{ListedRow, ListedRows, ListedThing};
use object_words::{MediaType, ObjectName};
use rgw_types::{Bytes, Pairs, Stamp, Text};
use std::alloc::{AllocError, Global};
use std::test::Fail;
use swift_reply::{
    AccountRow, AccountRows, SwiftRefusal, TargetKind, json_accounts, json_rows, plain_accounts,
    plain_rows, push_bad_request, push_refusal, push_shown_head, push_stored, write_head,
};

// All texts here were written by hand or by another program.

/// The MD5 digest of `hello`.
const HELLO: [u8; 16] = [
    93, 65, 64, 42, 188, 75, 42, 118, 185, 113, 157, 145, 16, 23, 197, 146,
];

/// An object of five bytes of plain text, stored at this moment.
fn thing(alloc: Global, name: &str, micros: u64) -> Result<ListedRow, Fail> {
    let kind = MediaType::new(Text::from_str(alloc, "text/plain")?).unwrap_or(MediaType::absent(
        alloc,
    ));
    let thing = ListedThing {
        size: 5,
        stamp: Stamp { micros, zone: 1 },
        etag: HELLO,
        kind,
    };
    let name = ObjectName::new(Text::from_str(alloc, name)?)
        .ok()
        .ok_or("no name")?;
    Ok(ListedRow::Thing(name, thing))
}

fn subdir(alloc: Global, key: &str) -> Result<ListedRow, AllocError> {
    Ok(ListedRow::Subdir(Text::from_str(alloc, key)?))
}

fn account_row(alloc: Global, name: &str, subdir: bool) -> Result<AccountRow, AllocError> {
    let (count, bytes) = if subdir { (0, 0) } else { (1, 5) };
    Ok(AccountRow {
        name: Text::from_str(alloc, name)?,
        count,
        bytes,
        subdir,
    })
}

fn is(text: &Bytes, bytes: &[u8]) -> bool {
    text.as_slice() == bytes
}

fn field(alloc: Global, name: &str, value: &str) -> Result<Field, AllocError> {
    Ok(Field {
        name: Text::from_str(alloc, name)?,
        value: Bytes::from_slice(alloc, value.as_bytes())?,
    })
}

fn three_rows(alloc: Global) -> Result<ListedRows, Fail> {
    let mut rows = ListedRows::new(alloc);
    rows.push(subdir(alloc, "a\"\\\u{1}\n\u{7f}é/")?)?;
    rows.push(thing(alloc, "k", 1_700_000_000_000_000)?)?;
    rows.push(thing(alloc, "l", 951_868_799_999_999)?)?;
    Ok(rows)
}

/// Whether rows are these texts, one without words and one in JSON.
fn are(alloc: Global, rows: &ListedRows, plain: &[u8], json: &[u8]) -> Result<bool, AllocError> {
    Ok(is(&plain_rows(alloc, rows)?, plain) && is(&json_rows(alloc, rows)?, json))
}

#[test]
fn no_rows_of_a_container(rt: HostRuntime) -> Result<(), Fail> {
    let alloc = rt.alloc();
    assert!(rt; are(alloc, &ListedRows::new(alloc), b"", b"[]")?);
    Ok(())
}

#[test]
fn rows_of_a_container(rt: HostRuntime) -> Result<(), Fail> {
    let alloc = rt.alloc();
    let rows = three_rows(alloc)?;
    let right = are(
        alloc,
        &rows,
        b"a\"\\\x01\n\x7f\xc3\xa9/\nk\nl\n",
        b"[{\"subdir\":\"a\\\"\\\\\\u0001\\n\x7f\xc3\xa9/\"},{\"bytes\":5,\"content_type\":\"text/plain\",\"hash\":\"5d41402abc4b2a76b9719d911017c592\",\"last_modified\":\"2023-11-14T22:13:20.000000\",\"name\":\"k\"},{\"bytes\":5,\"content_type\":\"text/plain\",\"hash\":\"5d41402abc4b2a76b9719d911017c592\",\"last_modified\":\"2000-02-29T23:59:59.999999\",\"name\":\"l\"}]",
    );
    drop(rows);
    assert!(rt; right?);
    Ok(())
}

/// Whether rows of an account are these texts, one without words and one in JSON.
fn lists(alloc: Global, rows: &AccountRows, plain: &[u8], json: &[u8]) -> Result<bool, AllocError> {
    Ok(is(&plain_accounts(alloc, rows)?, plain) && is(&json_accounts(alloc, rows)?, json))
}

#[test]
fn no_rows_of_an_account(rt: HostRuntime) -> Result<(), Fail> {
    let alloc = rt.alloc();
    assert!(rt; lists(alloc, &AccountRows::new(alloc), b"", b"[]")?);
    Ok(())
}

fn account_rows(alloc: Global, subdirs: bool) -> Result<AccountRows, AllocError> {
    let mut rows = AccountRows::new(alloc);
    rows.push(account_row(alloc, "docs", false)?)?;
    if subdirs {
        rows.push(account_row(alloc, "e/", true)?)?;
    }
    Ok(rows)
}

#[test]
fn one_row_of_an_account(rt: HostRuntime) -> Result<(), Fail> {
    let alloc = rt.alloc();
    let rows = account_rows(alloc, false)?;
    let right = lists(
        alloc,
        &rows,
        b"docs\n",
        b"[{\"bytes\":5,\"count\":1,\"name\":\"docs\"}]",
    );
    drop(rows);
    assert!(rt; right?);
    Ok(())
}

#[test]
fn a_subdir_of_an_account(rt: HostRuntime) -> Result<(), Fail> {
    let alloc = rt.alloc();
    let rows = account_rows(alloc, true)?;
    let right = lists(
        alloc,
        &rows,
        b"docs\ne/\n",
        b"[{\"bytes\":5,\"count\":1,\"name\":\"docs\"},{\"subdir\":\"e/\"}]",
    );
    drop(rows);
    assert!(rt; right?);
    Ok(())
}

#[test]
fn heads(rt: HostRuntime) -> Result<(), Fail> {
    let alloc = rt.alloc();
    let mut fields = Fields::new(alloc);
    let none = ReplyHead { code: 100, fields };
    assert!(rt; is(&write_head(alloc, &none)?, b"HTTP/1.1 100 Continue\r\n\r\n"));
    fields = Fields::new(alloc);
    fields.push(field(alloc, "Content-Length", "0")?)?;
    fields.push(field(alloc, "Connection", "close")?)?;
    let stored = ReplyHead { code: 507, fields };
    assert!(rt;
        is(
            &write_head(alloc, &stored)?,
            b"HTTP/1.1 507 Insufficient Storage\r\nContent-Length: 0\r\nConnection: close\r\n\r\n"
        )
    );
    Ok(())
}

const OPEN: ReplyForm = ReplyForm {
    bodiless: false,
    close: false,
};

const CLOSING: ReplyForm = ReplyForm {
    bodiless: false,
    close: true,
};

const STAMP: Stamp = Stamp {
    micros: 1_700_000_000_000_000,
    zone: 1,
};

#[test]
fn objects(rt: HostRuntime) -> Result<(), Fail> {
    let alloc = rt.alloc();
    let mut out = Vec::new(alloc);
    push_stored(&mut out, &HELLO, STAMP, CLOSING)?;
    assert!(rt;
        out.as_slice()
            == b"HTTP/1.1 201 Created\r\nContent-Length: 0\r\nETag: 5d41402abc4b2a76b9719d911017c592\r\nLast-Modified: Tue, 14 Nov 2023 22:13:20 GMT\r\nConnection: close\r\n\r\n".as_slice()
    );
    out.clear();
    let pair = (
        Text::from_str(alloc, "color")?,
        Text::from_str(alloc, "red")?,
    );
    let meta = Pairs::from_vec(vec![in alloc; pair]?).unwrap_or(Pairs::new(alloc));
    let kind = Text::from_str(alloc, "text/plain")?;
    push_shown_head(&mut out, &kind, &meta, &HELLO, STAMP, 5, OPEN)?;
    assert!(rt;
        out.as_slice()
            == b"HTTP/1.1 200 OK\r\nContent-Length: 5\r\nContent-Type: text/plain\r\nETag: 5d41402abc4b2a76b9719d911017c592\r\nLast-Modified: Tue, 14 Nov 2023 22:13:20 GMT\r\nAccept-Ranges: bytes\r\nX-Object-Meta-color: red\r\n\r\n".as_slice()
    );
    Ok(())
}

#[test]
fn refusals(rt: HostRuntime) -> Result<(), Fail> {
    let alloc = rt.alloc();
    let mut out = Vec::new(alloc);
    let named = ObjectName::new(Text::from_str(alloc, "a/b")?)
        .ok()
        .ok_or("no name")?;
    push_refusal(&mut out, &SwiftRefusal::NotEmpty { name: named }, OPEN)?;
    push_refusal(
        &mut out,
        &SwiftRefusal::NoSpace {
            free: 2,
            needed: 15,
        },
        CLOSING,
    )?;
    push_refusal(&mut out, &SwiftRefusal::NoMethod(TargetKind::Account), OPEN)?;
    push_bad_request(&mut out, BadRequest::Host, OPEN)?;
    assert!(rt;
        out.as_slice()
            == b"HTTP/1.1 409 Conflict\r\nContent-Length: 15\r\nContent-Type: text/plain; charset=utf-8\r\n\r\nNot empty: a/b\nHTTP/1.1 507 Insufficient Storage\r\nContent-Length: 18\r\nContent-Type: text/plain; charset=utf-8\r\nConnection: close\r\n\r\nNo space: 2 of 15\nHTTP/1.1 405 Method Not Allowed\r\nContent-Length: 19\r\nContent-Type: text/plain; charset=utf-8\r\nAllow: GET, HEAD\r\n\r\nMethod not allowed\nHTTP/1.1 400 Bad Request\r\nContent-Length: 18\r\nContent-Type: text/plain; charset=utf-8\r\n\r\nBad request: host\n".as_slice()
    );
    Ok(())
}
