// Connections in pieces of several sizes that end anywhere, and what is no head.
ghost use Rattle.std.specs.Prelude.{◌≤◌};

use super::answered;
use std::alloc::Global;
use std::test::Fail;

const CUT: &str = "Cut Some(Cut) Some(Cut)";

const BAD_HEAD: &str = "BadHead Some(BadHead) Some(BadHead)";

const TAKEN: &str = "PUT Length(5) hello Cut Some(Cut) Some(Cut)";

/// Whole connections, and what an intake answers on them.
const CONNECTIONS: &[(&str, &str)] = &[
    // a PUT, a GET, and the front of a further head
    (
        "PUT /swift/v1/AUTH_acme/box/a HTTP/1.1\r\nHost: h\r\nContent-Length: 5\r\n\r\nhelloGET /swift/v1/AUTH_acme/box/a HTTP/1.1\nHost: h\nConnection: close\n\nmore",
        "PUT Length(5) hello GET Empty  Cut Some(Cut) Some(Cut)",
    ),
    (
        "PUT /swift/v1/AUTH_acme/box/k HTTP/1.1\r\nHost: h\r\nX-Auth-Token: AUTH_tk1\r\nContent-Type: text/plain\r\nContent-Length: 5\r\n\r\nhelloGET /swift/v1/AUTH_acme/box/k HTTP/1.1\r\nHost: h\r\nX-Auth-Token: AUTH_tk1\r\n\r\n",
        "PUT Length(5) hello GET Empty  end",
    ),
    // cut in the head
    ("G", CUT),
    ("GET /a HTTP/1.1\r\nHost: h\r\n", CUT),
    // cut in the body
    (
        "PUT /a HTTP/1.1\r\nContent-Length: 5\r\n\r\n",
        "PUT Length(5)  Cut Some(Cut) Some(Cut)",
    ),
    (
        "PUT /a HTTP/1.1\r\nContent-Length: 5\r\n\r\nhel",
        "PUT Length(5) hel Cut Some(Cut) Some(Cut)",
    ),
    // no head
    ("GET\r\n\r\n", BAD_HEAD),
    // a CR alone is no empty line
    ("GET /a HTTP/1.1\r\nHost: h\r\n\rA: b\r\n\r\n", BAD_HEAD),
    // empty lines alone are no request
    ("\n", "end"),
    ("\r\r\n\r", "end"),
    // each method has its heads
    ("POST /a HTTP/1.1\r\nHost: h\r\n\r\n", "POST Empty  end"),
    ("HEAD /a HTTP/1.1\r\n\r\n", "HEAD Empty  end"),
    (
        "HEAD /a HTTP/1.1\r\nHost: h\r\nContent-Length: x\r\n\r\n",
        "BadFraming { bodiless: true } Some(BadFraming { bodiless: true }) Some(BadFraming { bodiless: true })",
    ),
];

#[test]
fn connections_in_pieces(rt: HostRuntime) -> Result<(), Fail> {
    for (input, wanted) in CONNECTIONS {
        for piece in [1, 2, 3, 5, 71, 4096] {
            let text = answered(rt.alloc(), input.as_bytes(), piece, 10)?;
            assert_eq!(rt; text.as_str(), *wanted, "{input:?} in pieces of {piece}");
        }
    }
    Ok(())
}

/// The fields of a PUT before `hello` and the first byte of a further head, and what an intake
/// answers first.
const FIELDS: &[(&str, &str)] = &[
    ("Host: h\r\nContent-Length: 5\r\n", TAKEN),
    // 19 digits are a length, and 20 are none
    ("Content-Length: 0000000000000000005\r\n", TAKEN),
    (
        "Content-Length: 00000000000000000005\r\n",
        "BadFraming { bodiless: false }",
    ),
    (
        "Content-Length: 5\r\nContent-Length: 5\r\n",
        "BadFraming { bodiless: false }",
    ),
    (
        "Transfer-Encoding: gzip\r\n",
        "BadFraming { bodiless: false }",
    ),
    // other fields say nothing of the body
    ("HOST: a\r\nhost: b\r\nContent-Length: 5\r\n", TAKEN),
    ("Expect: 100-Continue\r\nContent-Length: 5\r\n", TAKEN),
    ("Connection: close\r\nContent-Length: 5\r\n", TAKEN),
    ("Host: h\r\n", "PUT Empty  Cut Some(Cut) Some(Cut)"),
];

/// What an intake answers on a PUT with these fields, `hello` and a further byte.
fn answered_with(alloc: Global, fields: &str, piece: usize) -> Result<String, Fail>
    requires { 1 ≤ piece }
{
    let input = format!(in alloc; "PUT /a HTTP/1.1\r\n{fields}\r\nhelloG")?;
    answered(alloc, input.as_bytes(), piece, 10)
}

#[test]
fn fields_decide_where_a_body_ends(rt: HostRuntime) -> Result<(), Fail> {
    for (fields, wanted) in FIELDS {
        for piece in [1, 7, 4096] {
            let text = answered_with(rt.alloc(), fields, piece)?;
            assert!(rt;
                text.as_str().starts_with(*wanted),
                "{fields:?} in pieces of {piece}: {text}"
            );
        }
    }
    Ok(())
}
