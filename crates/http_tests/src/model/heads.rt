// Heads, their fields, and what they ask.
use crate::repeating::between;
use http_model::{
    Framing, Head, HeadFault, field_count, field_value, framing_of, read_head, waits_for_continue,
    wants_close,
};
use std::alloc::{AllocError, Global};
use std::test::Fail;

const HEAD: &[u8] =
    b"PUT /swift/v1/AUTH_acme/box/k.txt HTTP/1.1\r\nHost: h\r\nA:  one\t\r\na:two \r\nContent-Length: 5\r\n\r\n";

/// Of a repeated name the last value counts.
fn has_last_value(head: &Head) -> bool {
    let fields = head.fields.as_slice();
    field_value(fields, b"A") == Some(b"two".as_slice()) && field_count(fields, b"A") == 2
}

fn is_put_to_its_target(head: &Head) -> bool {
    let target = b"/swift/v1/AUTH_acme/box/k.txt".as_slice();
    head.is_put() && !head.is_get() && head.target.as_slice() == target && head.minor == 1
}

#[test]
fn a_head_says_what_its_text_does(rt: HostRuntime) -> Result<(), Fail> {
    let head = read_head(rt.alloc(), HEAD)?;
    let has_last_value = has_last_value(&head);
    let framing = framing_of(1, &head.fields);
    let is_put = is_put_to_its_target(&head);
    drop(head);
    assert!(rt; has_last_value);
    assert_eq!(rt; framing, Some(Framing::Length(5)));
    assert!(rt; is_put);
    Ok(())
}

/// Heads, and whether each has the Host fields that it should, wants the connection closed, waits for
/// a 100, and is answered without a body.
const ASKS: &[(&str, [bool; 4])] = &[
    (
        "GET / HTTP/1.1\r\nHost: h\r\n\r\n",
        [true, false, false, false],
    ),
    // the version tells how many Host fields there are, in any case of the name
    ("GET / HTTP/1.1\r\n\r\n", [false, false, false, false]),
    (
        "GET / HTTP/1.1\r\nHOST: a\r\nhost: b\r\n\r\n",
        [false, false, false, false],
    ),
    ("GET / HTTP/1.0\r\n\r\n", [true, false, false, false]),
    // the lines of several Connection fields are one list
    (
        "GET / HTTP/1.1\r\nHost: h\r\nConnection: te, Close\r\n\r\n",
        [true, true, false, false],
    ),
    (
        "GET / HTTP/1.1\r\nHost: h\r\nConnection: close\r\nConnection: te\r\n\r\n",
        [true, true, false, false],
    ),
    (
        "GET / HTTP/1.1\r\nHost: h\r\nConnection: te\r\nConnection: upgrade\r\n\r\n",
        [true, false, false, false],
    ),
    // any Expect field may wait
    (
        "PUT / HTTP/1.1\r\nExpect: 100-Continue\r\nContent-Length: 5\r\n\r\n",
        [false, false, true, false],
    ),
    (
        "PUT / HTTP/1.1\r\nExpect: 100-continue\r\nExpect: x\r\n\r\n",
        [false, false, true, false],
    ),
    (
        "HEAD / HTTP/1.1\r\nHost: h\r\n\r\n",
        [true, false, false, true],
    ),
];

fn asks_of(head: &Head) -> [bool; 4] {
    [
        head.has_host(),
        wants_close(&head.fields),
        waits_for_continue(&head.fields),
        head.is_bodiless(),
    ]
}

fn asked(alloc: Global, text: &str) -> Result<[bool; 4], HeadFault> {
    let head = read_head(alloc, text.as_bytes())?;
    let asks = asks_of(&head);
    drop(head);
    Ok(asks)
}

#[test]
fn fields_decide_what_a_head_asks(rt: HostRuntime) -> Result<(), Fail> {
    for (text, want) in ASKS {
        assert_eq!(rt; asked(rt.alloc(), *text)?, *want, "of {text:?}");
    }
    Ok(())
}

/// Why a head with so many fields is none.
fn fault_of(alloc: Global, count: usize) -> Result<Option<HeadFault>, AllocError> {
    let text = between(alloc, b"GET / HTTP/1.0\r\n", b"A: b\r\n", count, b"\r\n")?;
    let head = read_head(alloc, &text);
    drop(text);
    Ok(head.err())
}

#[test]
fn a_head_has_at_most_128_fields(rt: HostRuntime) -> Result<(), Fail> {
    for (count, want) in [(128, None), (129, Some(HeadFault::BadHead))] {
        assert_eq!(rt; fault_of(rt.alloc(), count)?, want, "at {count}");
    }
    Ok(())
}
