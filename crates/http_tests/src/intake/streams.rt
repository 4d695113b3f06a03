// Streams whose reading is known from the standard's grammar, by hand.
ghost use Rattle.std.specs.Prelude.{◌≤◌};

use super::answered;
use std::alloc::Global;
use std::test::Fail;

const PUT: &str = "PUT /a HTTP/1.1\r\nHost: h\r\nTransfer-Encoding: Chunked\r\n\r\n";

/// What follows the head of a PUT in chunks (RFC 9112, section 7.1), and what an intake answers. A
/// body may have 24 bytes.
const BODIES: &[(&str, &str)] = &[
    // The example of Wikipedia's page on the chunked coding.
    (
        "4\r\nWiki\r\n6\r\npedia \r\nE\r\nin \r\n\r\nchunks.\r\n0\r\n\r\n",
        "PUT Chunked Wikipedia in \r\n\r\nchunks. end",
    ),
    (
        "4\r\nWiki\r\n6\r\npedia \r\nF\r\nin \r\n\r\nchunks..\r\n0\r\n\r\n",
        "PUT Chunked Wikipedia  BodyTooLarge",
    ),
    ("0\r\n\r\n", "PUT Chunked  end"),
    ("00\r\n\r\n", "PUT Chunked  end"),
    ("0 \t\r\nA: b\r\n\r\n", "PUT Chunked  end"),
    ("05\r\nhello\r\n0\r\n\r\n", "PUT Chunked hello end"),
    (
        "5;n=\"q;\\\"x\";m\r\nhello\r\n0;last\r\nA: b\r\nC:\r\n\r\nGET /b HTTP/1.0\r\n\r\n",
        "PUT Chunked hello GET Empty  end",
    ),
    ("5\nhello\r\n0\r\n\r\n", "PUT Chunked  BadChunk"),
    ("5\r\nhello\n0\r\n\r\n", "PUT Chunked hello BadChunk"),
    (" 5\r\nhello\r\n0\r\n\r\n", "PUT Chunked  BadChunk"),
    ("zz\r\n", "PUT Chunked  BadChunk"),
    ("\r\n", "PUT Chunked  BadChunk"),
    ("ffffffffffffffff\r\n", "PUT Chunked  BodyTooLarge"),
    ("10000000000000000\r\n", "PUT Chunked  BadChunk"),
    ("5\r\nhelloo\r\n0\r\n\r\n", "PUT Chunked hello BadChunk"),
    ("0\r\nA b\r\n\r\n", "PUT Chunked  BadChunk"),
    ("5\r\nhel", "PUT Chunked hel Cut"),
    ("5\r\nhello", "PUT Chunked hello Cut"),
    ("5\r\nhello\r\n0\r\n", "PUT Chunked hello Cut"),
];

/// What an intake answers on the head of a PUT in chunks and what follows it.
fn answered_behind_put(alloc: Global, body: &str, piece: usize) -> Result<String, Fail>
    requires { 1 ≤ piece }
{
    let input = format!(in alloc; "{PUT}{body}")?;
    answered(alloc, input.as_bytes(), piece, 24)
}

#[test]
fn bodies_in_chunks(rt: HostRuntime) -> Result<(), Fail> {
    for (body, wanted) in BODIES {
        for piece in [1, 5, 4096] {
            let text = answered_behind_put(rt.alloc(), body, piece)?;
            assert!(rt;
                text.as_str().starts_with(*wanted),
                "{body} in pieces of {piece}: {text}"
            );
        }
    }
    Ok(())
}

/// Heads, and what an intake answers on them (RFC 9112, sections 2.3, 3.2 and 6).
const HEADS: &[(&str, &str)] = &[
    ("GET /a HTTP/1.0\r\n\r\n", "GET Empty  end"),
    ("GET /a HTTP/1.0\r\nHost: h\r\n\r\n", "GET Empty  end"),
    (
        "PUT /a HTTP/1.0\r\nTransfer-Encoding: chunked\r\n\r\n0\r\n\r\n",
        "BadFraming { bodiless: false }",
    ),
    (
        "PUT /a HTTP/1.1\r\nTransfer-Encoding: gzip, chunked\r\n\r\n0\r\n\r\n",
        "BadFraming { bodiless: false }",
    ),
    (
        "PUT /a HTTP/1.1\r\nTransfer-Encoding: chunked\r\nContent-Length: 5\r\n\r\n0\r\n\r\n",
        "BadFraming { bodiless: false }",
    ),
    (
        "PUT /a HTTP/1.1\r\nExpect: 100-Continue\r\ntransfer-encoding: CHUNKED\r\n\r\n1\r\nx\r\n0\r\n\r\n",
        "PUT Chunked x end",
    ),
];

#[test]
fn heads_of_each_framing(rt: HostRuntime) -> Result<(), Fail> {
    for (input, wanted) in HEADS {
        let text = answered(rt.alloc(), input.as_bytes(), 7, 24)?;
        assert!(rt; text.as_str().starts_with(*wanted), "{input}: {text}");
    }
    Ok(())
}
