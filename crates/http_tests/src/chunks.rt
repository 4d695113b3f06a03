// Bodies in chunks beside RFC 9112, section 7.1, and its grammar by hand.
use crate::repeating::{add, between, repeated};
use http_chunks::{BodyEnd, read_chunked};
use std::alloc::{AllocError, Global};
use std::str;
use std::test::Fail;

/// What a body in chunks comes to: its content, how it ends, and what follows.
fn outcome(alloc: Global, text: &str, largest: u64) -> Result<String, AllocError> {
    let body = read_chunked(alloc, text.as_bytes(), largest)?;
    let end = body.end;
    let rest = str::from_utf8(body.rest).unwrap_or("?");
    let content = str::from_utf8(body.content.as_slice()).unwrap_or("?");
    let outcome = format!(in alloc; "{content} {end:?} {rest}");
    drop(body);
    outcome
}

/// Bodies, and what they come to where one may have ten bytes.
const BODIES: &[(&str, &str)] = &[
    (
        "4\r\nWiki\r\n5\r\npedia\r\n0\r\n\r\nGET",
        "Wikipedia Whole GET",
    ),
    ("0\r\n\r\n", " Whole "),
    ("00 \t\r\nA: b\nc:d\r\n\r\n", " Whole "),
    (
        "a;n=\"q;\\\"x\" \r\n0123456789\r\n0;last\r\n\n+",
        "0123456789 Whole +",
    ),
    (
        "2\r\nab\r\n00000000000000001\r\nc",
        "ab BadChunk \r\n00000000000000001\r\nc",
    ),
    ("2\nab\r\n", " BadChunk 2\nab\r\n"),
    ("zz\r\n", " BadChunk zz\r\n"),
    (" 1\r\na\r\n", " BadChunk  1\r\na\r\n"),
    ("1\r\nab\r\n", "a Cut b\r\n"),
    ("1\r\nab\r\n0\r\n\r\n", "a BadChunk b\r\n0\r\n\r\n"),
    ("1\r\na\n0\r\n\r\n", "a BadChunk \n0\r\n\r\n"),
    ("0\r\nA b\r\n\r\n", " BadChunk 0\r\nA b\r\n\r\n"),
    ("10000000000000000\r\n", " BadChunk 10000000000000000\r\n"),
    ("ffffffffffffffff\r\n", " TooLarge ffffffffffffffff\r\n"),
    (
        "6\r\nabcdef\r\n5\r\nghijk\r\n",
        "abcdef TooLarge \r\n5\r\nghijk\r\n",
    ),
    ("6\r\nabcdef\r\n4\r\nghij\r\n0\r\n\r\n", "abcdefghij Whole "),
    ("", " Cut "),
    ("3\r\nab", " Cut 3\r\nab"),
    ("3\r\nabc\r", "abc Cut \r"),
    ("0\r\nA: b\r\n", " Cut 0\r\nA: b\r\n"),
];

#[test]
fn bodies_of_a_few_chunks(rt: HostRuntime) -> Result<(), Fail> {
    for (text, wanted) in BODIES {
        let found = outcome(rt.alloc(), text, 10)?;
        assert_eq!(rt; found.as_str(), *wanted);
    }
    Ok(())
}

/// How a body ends that may have no content.
fn end_of(alloc: Global, text: &[u8]) -> Result<BodyEnd, AllocError> {
    let body = read_chunked(alloc, text, 0)?;
    let end = body.end;
    drop(body);
    Ok(end)
}

/// How a body ends whose chunk line has so many bytes, with its line end, and no further ones.
fn end_of_line(alloc: Global, count: usize, last: &[u8]) -> Result<BodyEnd, AllocError> {
    let text = between(alloc, b"0;", b"x", count, last)?;
    let end = end_of(alloc, &text);
    drop(text);
    end
}

/// How many bytes a chunk line has beside the first two and its end, what ends it, and how the body
/// ends.
const LINES: &[(usize, &[u8], BodyEnd)] = &[
    (252, b"\r\n\r\n", BodyEnd::Whole),
    (253, b"\r\n\r\n", BodyEnd::BadChunk),
    (254, b"", BodyEnd::Cut),
    (255, b"", BodyEnd::BadChunk),
];

#[test]
fn a_chunk_line_has_at_most_256_bytes(rt: HostRuntime) -> Result<(), Fail> {
    for (count, last, wanted) in LINES {
        let end = end_of_line(rt.alloc(), *count, last)?;
        assert_eq!(rt; end, *wanted, "at {count}");
    }
    Ok(())
}

/// How a body ends with so many trailers, and one more that has a value of so many bytes.
fn end_of_trailers(alloc: Global, count: usize, value: usize) -> Result<BodyEnd, AllocError> {
    let mut text = repeated(alloc, b"0\r\n", b"A: b\r\n", count)?;
    text.extend_from_slice(b"A:")?;
    add(&mut text, b"x", value)?;
    text.extend_from_slice(b"\n\n")?;
    let end = end_of(alloc, &text);
    drop(text);
    end
}

/// How many trailers there are before the last one, how many bytes its value has, and how the body
/// ends.
const TRAILERS: &[(usize, usize, BodyEnd)] = &[
    (127, 1, BodyEnd::Whole),
    (128, 1, BodyEnd::BadChunk),
    (0, 65532, BodyEnd::Whole),
    (0, 65533, BodyEnd::BadChunk),
];

#[test]
fn trailers_are_128_fields_of_65536_bytes(rt: HostRuntime) -> Result<(), Fail> {
    for (count, value, wanted) in TRAILERS {
        let end = end_of_trailers(rt.alloc(), *count, *value)?;
        assert_eq!(rt; end, *wanted, "at {count} and {value}");
    }
    Ok(())
}
