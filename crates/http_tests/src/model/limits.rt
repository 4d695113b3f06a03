// Each public call at its greatest sizes: a head of 65536 bytes with a target of 8192 and 128 fields.
use crate::repeating::{add, repeated};
use http_model::{
    FIELD_LIMIT, Framing, HEAD_LIMIT, Head, REQUEST_LIMIT, field_count, field_value, framing_of,
    read_head,
};
use std::alloc::{AllocError, Global};
use std::test::Fail;

/// A head of 65536 bytes: 126 fields of little text, the longest length, and a value that fills it.
fn greatest_head(alloc: Global) -> Result<Vec<u8>, AllocError> {
    let mut text = repeated(alloc, b"PUT /", b"a", 8191)?;
    text.extend_from_slice(b" HTTP/1.1\r\nHost: h\r\nContent-Length: 9999999999999999999\r\n")?;
    add(&mut text, b"N: v\r\n", 125)?;
    text.extend_from_slice(b"Fill: ")?;
    let count = HEAD_LIMIT.saturating_sub(text.len().saturating_add(4));
    add(&mut text, b"x", count)?;
    text.extend_from_slice(b"\r\n\r\n")?;
    Ok(text)
}

#[test]
fn the_greatest_head_is_as_long_as_a_head_may_be(rt: HostRuntime) -> Result<(), Fail> {
    let text = greatest_head(rt.alloc())?;
    assert_eq!(rt; text.len(), HEAD_LIMIT);
    Ok(())
}

fn greatest(alloc: Global) -> Result<Head, Fail> {
    let text = greatest_head(alloc)?;
    let head = read_head(alloc, &text);
    drop(text);
    Ok(head?)
}

/// How many bytes the target has, how many fields there are, how many bytes the value of one has
/// that fills the head, and how many fields have the name `n`.
fn sizes_of(head: &Head) -> [usize; 4] {
    let fields = head.fields.as_slice();
    let fill = field_value(fields, b"fill").map_or(0, |value| value.len());
    [
        head.target.len(),
        head.fields.len(),
        fill,
        field_count(fields, b"n"),
    ]
}

#[test]
fn the_sizes_of_the_greatest_head(rt: HostRuntime) -> Result<(), Fail> {
    let head = greatest(rt.alloc())?;
    let sizes = sizes_of(&head);
    let framing = framing_of(1, &head.fields);
    drop(head);
    assert_eq!(rt; sizes, [8192, FIELD_LIMIT, 56523, 125]);
    assert_eq!(rt; framing, Some(Framing::Length(9_999_999_999_999_999_999)));
    Ok(())
}

fn is_put_with_host(head: &Head) -> bool {
    head.has_host() && head.is_put() && !head.is_get() && !head.is_bodiless()
}

#[test]
fn what_the_greatest_head_asks(rt: HostRuntime) -> Result<(), Fail> {
    let head = greatest(rt.alloc())?;
    let is_put = is_put_with_host(&head);
    drop(head);
    assert!(rt; is_put);
    Ok(())
}

#[test]
fn a_connection_has_at_most_100000_requests(rt: HostRuntime) -> Result<(), Fail> {
    assert_eq!(rt; REQUEST_LIMIT, 100_000);
    Ok(())
}
