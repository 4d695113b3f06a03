// The requests of a connection in pieces, beside what the standard's grammar says of them.
ghost use Rattle.std.specs.Prelude.{◌≡◌, ◌≤◌, None, Some, IfOk, IsTrue, MatchOption};
ghost use Rattle.http_intake.specs.Intake.{IsBetween};

mod cuts;
mod limits;
mod streams;

use gw_io::{SliceSource, Source};
use http_intake::{Intake, IntakeFault};
use std::alloc::{AllocError, Global};
use std::fmt::Write;
use std::str;
use std::test::Fail;

/// Adds the body that is left to the text; or answers the fault that came in its place.
fn add_body<S: Source>(
    intake: &mut Intake,
    source: &mut S,
    text: &mut String,
) -> Result<Option<IntakeFault>, AllocError>
    requires goes { intake.old.failed ≡ None }
    ensures { IfOk result (λ fault. MatchOption fault ((intake.new.failed ≡ None) × IsBetween intake.new)
        (λ fault. intake.new.failed ≡ Some fault)) }
{
    let mut piece = [0; 3];
    for _ in 0..u64::MAX {
        match intake.body(source, &mut piece) {
            Ok(0) => return Ok(None),
            Ok(count) => text.push_str(str::from_utf8(&piece[..count]).unwrap_or("?"))?,
            Err(fault) => return Ok(Some(fault)),
        }
    }
    Err(AllocError)
}

/// Adds what the intake answers next: the method, the framing and the body of a request, the end, or
/// a fault. Whether more can come.
fn add_answer<S: Source>(
    alloc: Global,
    intake: &mut Intake,
    source: &mut S,
    text: &mut String,
) -> Result<bool, Fail>
    requires goes { intake.old.failed ≡ None }
    requires between { IsBetween intake.old }
    ensures { IfOk result (λ more. IsTrue more → (intake.new.failed ≡ None) × IsBetween intake.new) }
{
    let fault = match intake.next(alloc, source) {
        Ok(None) => {
            text.push_str("end")?;
            return Ok(false);
        }
        Ok(Some(head)) => {
            let method = head.method.as_str();
            let framing = head.framing;
            write!(text, "{method} {framing:?} ")?;
            let stopped = add_body(intake, source, text)?;
            text.push_str(" ")?;
            let Some(fault) = stopped else {
                return Ok(true);
            };
            fault
        }
        Err(fault) => fault,
    };
    let next = intake.next(alloc, source).err();
    let body = intake.body(source, &mut [0]).err();
    write!(text, "{fault:?} {next:?} {body:?}")?;
    Ok(false)
}

/// What an intake answers on a connection of at most so many requests, whose chunks have at most
/// `largest` bytes together. After a fault both calls are asked again.
fn answers<S: Source>(
    alloc: Global,
    source: &mut S,
    largest: u64,
    most: u32,
) -> Result<String, Fail> {
    let mut intake = Intake::new(alloc, largest)?;
    let mut text = String::new(alloc);
    for _ in 0..most {
        if !add_answer(alloc, &mut intake, source, &mut text)? {
            break;
        }
    }
    Ok(text)
}

/// What it answers on an input that comes in pieces.
fn answered(alloc: Global, input: &[u8], piece: usize, largest: u64) -> Result<String, Fail>
    requires { 1 ≤ piece }
{
    let mut source = SliceSource::new(input, piece, &[]);
    answers(alloc, &mut source, largest, 4)
}

/// Inputs, and what an intake answers whose bodies in chunks may have ten bytes.
const INPUTS: &[(&str, &str)] = &[
    ("", "end"),
    ("GET /a HTTP/1.1\r\nHost: h\r\n\r\n", "GET Empty  end"),
    (
        "\r\n\nPUT /a HTTP/1.1\r\nContent-Length: 5\r\n\r\nhelloGET /b HTTP/1.0\n\n",
        "PUT Length(5) hello GET Empty  end",
    ),
    (
        "PUT /a HTTP/1.1\nTransfer-Encoding: chunked\n\n",
        "PUT Chunked  Cut Some(Cut) Some(Cut)",
    ),
    (
        "PUT /a HTTP/1.1\nTransfer-Encoding: chunked\n\n4\r\nWiki\r\n5;x=\"y\"\r\npedia\r\n0\r\nA: b\r\n\r\nGET /b HTTP/1.0\n\n",
        "PUT Chunked Wikipedia GET Empty  end",
    ),
    (
        "PUT /a HTTP/1.1\nTransfer-Encoding: chunked\n\n4\r\nWiki\r\nzz\r\n",
        "PUT Chunked Wiki BadChunk Some(BadChunk) Some(BadChunk)",
    ),
    (
        "PUT /a HTTP/1.1\nTransfer-Encoding: chunked\n\n6\r\nabcdef\r\n5\r\nghijk\r\n",
        "PUT Chunked abcdef BodyTooLarge Some(BodyTooLarge) Some(BodyTooLarge)",
    ),
    (
        "GET /a HTTP/1.1\r\nHost: h\r\n\r",
        "Cut Some(Cut) Some(Cut)",
    ),
    (
        "PUT /a HTTP/1.1\r\nContent-Length: 5\r\n\r\nhell",
        "PUT Length(5) hell Cut Some(Cut) Some(Cut)",
    ),
    ("GET /a\n\n", "BadHead Some(BadHead) Some(BadHead)"),
    ("\r\n\n", "end"),
    ("GET /a HTTP/1.1\r\nHost: h\r\n\r\n\n\r", "GET Empty  end"),
    (
        "HEAD /a HTTP/1.1\nContent-Length: 1\nContent-Length: 1\n\n",
        "BadFraming { bodiless: true } Some(BadFraming { bodiless: true }) Some(BadFraming { bodiless: true })",
    ),
    (
        "PUT /a HTTP/1.1\nContent-Length: five\n\n",
        "BadFraming { bodiless: false } Some(BadFraming { bodiless: false }) Some(BadFraming { bodiless: false })",
    ),
];

#[test]
fn pieces_give_the_same_answers(rt: HostRuntime) -> Result<(), Fail> {
    for (input, wanted) in INPUTS {
        for piece in [1, 7, 4096] {
            let text = answered(rt.alloc(), input.as_bytes(), piece, 10)?;
            assert_eq!(rt; text.as_str(), *wanted, "in pieces of {piece}");
        }
    }
    Ok(())
}

/// The number of the call that fails, and the answers.
const FAILED_READS: &[(u64, &str)] = &[
    (3, "ReadFault Some(ReadFault) Some(ReadFault)"),
    (
        6,
        "PUT Length(5) hell ReadFault Some(ReadFault) Some(ReadFault)",
    ),
    (9, "PUT Length(5) hello end"),
];

/// What an intake answers where that call of the source fails.
fn answered_at(alloc: Global, call: u64) -> Result<String, Fail> {
    let input = b"PUT /a HTTP/1.1\r\nContent-Length: 5\r\n\r\nhello";
    let failing = [call];
    let mut source = SliceSource::new(input, 7, &failing);
    answers(alloc, &mut source, 10, 4)
}

#[test]
fn a_failed_read_is_answered_again(rt: HostRuntime) -> Result<(), Fail> {
    for (call, wanted) in FAILED_READS {
        let text = answered_at(rt.alloc(), *call)?;
        assert_eq!(rt; text.as_str(), *wanted, "at the call {call}");
    }
    Ok(())
}
