// How long heads, chunk lines, trailers and connections are that an intake takes.
use super::{answered, answers};
use crate::repeating::{between, repeated};
use gw_io::SliceSource;
use std::alloc::Global;
use std::test::Fail;

const TOO_LARGE: &str = "HeadTooLarge Some(HeadTooLarge) Some(HeadTooLarge)";

/// How many bytes the value of a field has, those behind it, and what an intake answers.
const HEADS: &[(usize, &[u8], &str)] = &[
    (65516, b"\n\n", "GET Empty  end"),
    (65517, b"\n\n", TOO_LARGE),
    (65517, b"\n", "Cut Some(Cut) Some(Cut)"),
    (65518, b"\n", TOO_LARGE),
    (65514, b"\r\n\r\n", "GET Empty  end"),
    (65515, b"\r\n\r\n", TOO_LARGE),
    (65518, b"", "Cut Some(Cut) Some(Cut)"),
    (65519, b"", TOO_LARGE),
];

fn answered_long(alloc: Global, count: usize, last: &[u8]) -> Result<String, Fail> {
    let input = between(alloc, b"GET / HTTP/1.1\nX: ", b"x", count, last)?;
    answered(alloc, &input, 4096, 10)
}

#[test]
fn a_head_has_at_most_65536_bytes(rt: HostRuntime) -> Result<(), Fail> {
    for (count, last, wanted) in HEADS {
        let text = answered_long(rt.alloc(), *count, last)?;
        assert_eq!(rt; text.as_str(), *wanted, "at {count}");
    }
    Ok(())
}

/// How many fields a head has before the last one, which frames the body, and what an intake answers.
const FIELDS: &[(usize, &str)] = &[
    (15, "PUT Length(3) abc end"),
    (16, "PUT Length(3) abc end"),
    (127, "PUT Length(3) abc end"),
    (128, "BadHead Some(BadHead) Some(BadHead)"),
];

fn answered_framed(alloc: Global, count: usize) -> Result<String, Fail> {
    let last = b"Content-Length: 3\r\n\r\nabc";
    let input = between(alloc, b"PUT /a HTTP/1.1\r\n", b"A: b\r\n", count, last)?;
    answered(alloc, &input, 64, 24)
}

#[test]
fn heads_have_at_most_128_fields(rt: HostRuntime) -> Result<(), Fail> {
    for (count, wanted) in FIELDS {
        let text = answered_framed(rt.alloc(), *count)?;
        assert_eq!(rt; text.as_str(), *wanted, "{count}");
    }
    Ok(())
}

/// A last chunk behind the head of a PUT.
const LAST_CHUNK: &[u8] = b"PUT /a HTTP/1.1\r\nHost: h\r\nTransfer-Encoding: Chunked\r\n\r\n0\r\n";

/// A chunk and the front of the next chunk line behind the head of a PUT.
const TWO_LINES: &[u8] =
    b"PUT /a HTTP/1.1\r\nHost: h\r\nTransfer-Encoding: Chunked\r\n\r\n5\r\nhello\r\n0;";

fn answered_trailers(alloc: Global, count: usize) -> Result<String, Fail> {
    let input = between(alloc, LAST_CHUNK, b"A: b\r\n", count, b"\r\n")?;
    answered(alloc, &input, 7, 24)
}

#[test]
fn trailers_have_at_most_128_fields(rt: HostRuntime) -> Result<(), Fail> {
    for (count, wanted) in [(128, "PUT Chunked  end"), (129, "PUT Chunked  BadChunk")] {
        let text = answered_trailers(rt.alloc(), count)?;
        assert!(rt; text.as_str().starts_with(wanted), "{count}: {text}");
    }
    Ok(())
}

fn answered_lines(alloc: Global, count: usize) -> Result<String, Fail> {
    let input = between(alloc, TWO_LINES, b"x", count, b"\r\n\r\n")?;
    answered(alloc, &input, 64, 24)
}

#[test]
fn a_chunk_line_has_at_most_256_bytes(rt: HostRuntime) -> Result<(), Fail> {
    for (count, wanted) in [
        (252, "PUT Chunked hello end"),
        (253, "PUT Chunked hello BadChunk"),
    ] {
        let text = answered_lines(rt.alloc(), count)?;
        assert!(rt; text.as_str().starts_with(wanted), "{count}: {text}");
    }
    Ok(())
}

fn answered_many(alloc: Global) -> Result<String, Fail> {
    let input = repeated(alloc, b"", b"GET /a HTTP/1.1\r\n\r\n", 100_000)?;
    let mut source = SliceSource::new(&input, 4096, &[]);
    answers(alloc, &mut source, 24, 100_001)
}

#[test]
fn a_connection_of_100000_requests(rt: HostRuntime) -> Result<(), Fail> {
    let text = answered_many(rt.alloc())?;
    assert_eq!(rt; text.len(), 100_000 * "GET Empty  ".len() + "end".len());
    assert!(rt; text.as_str().ends_with("GET Empty  end"));
    Ok(())
}
