//! What the fields of a request say of its command.
ghost use Rattle.std.specs.Prelude.{◌≡◌, IfOk, true};
ghost use Rattle.swift_requests.specs.Fields.{has_texts, has_put_texts, has_put_sizes};
ghost use Rattle.swift_requests.specs.Commands.{second_of, conditions_of, kind_of};
ghost use Rattle.swift_requests.specs.Ranges.{span_of};

use crate::etag::etag_rule;
use crate::range::span_in;
use date_words::second_of_date;
use http_model::{Head, field_value};
use object_words::{Conditions, MediaType};
use rgw_types::Text;
use std::alloc::{AllocError, Global};
use task_words::Span;

/// The second that the last field of this name shows. A date that is not one is dropped.
#[tactic(auto, unfolding(crate::specs::Commands::second_of))]
fn second_of(head: &Head, name: &[u8]) -> Option<u64>
    ensures { result ≡ second_of name.now head.now }
{
    second_of_date(field_value(head.fields.as_slice(), name)?)
}

/// The conditions of a request (RFC 9110, section 13.1): If-Match and If-None-Match, and, unless it is a
/// PUT, If-Modified-Since and If-Unmodified-Since. Of a repeated name the last value counts.
#[tactic(auto, unfolding(crate::specs::Fields::has_texts, crate::specs::Commands::conditions_of))]
pub(crate) fn conditions(alloc: Global, head: &Head) -> Result<Conditions, AllocError>
    requires { has_texts head.now ≡ true }
    ensures { IfOk result (λ when. when ≡ conditions_of head.now) }
{
    let matches = etag_rule(alloc, head, b"if-match")?;
    let none = etag_rule(alloc, head, b"if-none-match")?;
    let (modified, unmodified) = if head.is_put() {
        (None, None)
    } else {
        (
            second_of(head, b"if-modified-since"),
            second_of(head, b"if-unmodified-since"),
        )
    };
    Ok(Conditions {
        matches,
        none,
        modified,
        unmodified,
    })
}

/// The media type that was sent with a PUT. An empty one counts as none.
#[tactic(auto, unfolding(crate::specs::Commands::kind_of))]
pub(crate) fn kind(alloc: Global, head: &Head) -> Result<Option<MediaType>, AllocError>
    requires texts { has_put_texts head.now ≡ true }
    requires sizes { has_put_sizes head.now ≡ true }
    ensures { IfOk result (λ kind. kind ≡ kind_of head.now) }
{
    match field_value(head.fields.as_slice(), b"content-type") {
        Some(value) if !value.is_empty() => {
            let text = Text::from_utf8(alloc, value)?;
            Ok(Some(MediaType::new(text).unwrap()))
        }
        _ => Ok(None),
    }
}

/// The range that a request asks for (RFC 9110, section 14.2): none unless it is a GET without If-Range,
/// nor where the last Range is not one range of bytes.
#[tactic(auto, unfolding(crate::specs::Ranges::span_of))]
pub(crate) fn span(head: &Head) -> Option<Span>
    ensures { result ≡ span_of head.now }
{
    let fields = head.fields.as_slice();
    if !head.is_get() || field_value(fields, b"if-range").is_some() {
        return None;
    }
    span_in(field_value(fields, b"range")?)
}
