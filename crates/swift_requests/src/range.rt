//! Ranges of bytes as texts.
ghost use Rattle.std.specs.Prelude.{◌≡◌};
ghost use Rattle.std.specs.List.{list_all, position_or_len};
ghost use Rattle.std.specs.Char.{is_ascii_digit};
ghost use Rattle.swift_requests.specs.Ranges.{is_numeral, number_in, span_between, is_dash, span_behind_unit, span_in};

use http1::Header;
use http1::fields::{ContentLength, KnownFields};
use task_words::Span;

/// The unit of the ranges that are read.
const UNIT: &[u8] = b"bytes=";

fn has_digits_alone(text: &[u8]) -> bool
    ensures { result ≡ list_all is_ascii_digit text.now }
{
    text.iter().all(|byte| byte.is_ascii_digit())
}

/// Whether the text is one digit or more, and nothing else.
fn is_numeral(text: &[u8]) -> bool
    ensures { result ≡ is_numeral text.now }
{
    !text.is_empty() && has_digits_alone(text)
}

/// The number that digits write, which are read as those of a length. Above the greatest that counts it is
/// that.
fn number_in(text: &[u8]) -> Option<u64>
    ensures { result ≡ number_in text.now }
{
    if !is_numeral(text) {
        return None;
    }
    let field = Header {
        name: b"content-length",
        value: text,
    };
    match KnownFields::from_headers(&[field]).content_length {
        ContentLength::Value(number) => Some(number),
        ContentLength::Absent | ContentLength::Invalid => Some(u64::MAX),
    }
}

/// The range between what stands before and behind the `-`.
fn span_between(first: &[u8], last: &[u8]) -> Option<Span>
    ensures { result ≡ span_between first.now last.now }
{
    match (number_in(first), number_in(last)) {
        (Some(first), Some(last)) => Some(Span::Between(first, last)),
        (Some(first), None) if last.is_empty() => Some(Span::From(first)),
        (None, Some(count)) if first.is_empty() => Some(Span::Last(count)),
        _ => None,
    }
}

/// Where the first `-` stands; the length where there is none.
fn dash_at(text: &[u8]) -> usize
    ensures { result ≡ position_or_len is_dash text.now }
{
    let at = text.iter().position(|byte| *byte == b'-');
    at.unwrap_or(text.len())
}

fn span_behind_unit(text: &[u8]) -> Option<Span>
    ensures { result ≡ span_behind_unit text.now }
{
    let at = dash_at(text);
    if at < text.len() {
        span_between(&text[..at], &text[at + 1..])
    } else {
        None
    }
}

/// The one range that a value of Range asks for, as `bytes=0-499`, `bytes=9500-` or `bytes=-500` (RFC 9110,
/// section 14.1.2). `None` for any other text, and for several ranges.
#[tactic(auto, unfolding(crate::specs::Ranges::span_in))]
pub(crate) fn span_in(value: &[u8]) -> Option<Span>
    ensures { result ≡ span_in value.now }
{
    span_behind_unit(value.strip_prefix(UNIT)?)
}
