//! What fields and lengths are tested for, and what targets are read as.
ghost use Rattle.std.specs.Prelude.{◌≡◌, codes, true};
ghost use Rattle.std.specs.Str.{is_utf8};
ghost use Rattle.object_words.specs.Limits.{is_name};
ghost use Rattle.http_model.specs.Framings.{value_of};
ghost use Rattle.swift_requests.specs.Asks.{invalid_by};
ghost use Rattle.swift_requests.specs.Commands.{listing_form};
ghost use Rattle.swift_requests.specs.Fields.{is_sent, is_text_field, has_texts, has_put_texts, has_put_sizes, is_kind_if_any, is_without_length, is_above};
ghost use Rattle.swift_requests.specs.Metadata.{meta_of};

use crate::metadata::SentMetadata;
use http_model::{Framing, Head, field_value};
use http1::text::eq_ignore_case;
use object_words::{MediaType, Name};
use rgw_types::Text;
use swift_reply::{Invalid, ListingForm};
use swift_words::{Query, WordFault};

/// Whether some field has this name, in any case.
pub(crate) fn is_sent(head: &Head, name: &[u8]) -> bool
    ensures { result ≡ is_sent name.now head.now }
{
    head.fields
        .as_slice()
        .iter()
        .any(|field| eq_ignore_case(field.name.as_bytes(), name))
}

pub(crate) fn is_text(value: &[u8]) -> bool
    ensures { result ≡ is_utf8 value.now }
{
    str::from_utf8(value).is_ok()
}

/// Whether the value that counts of this name is UTF-8; it is where there is none.
pub(crate) fn is_text_field(head: &Head, name: &[u8]) -> bool
    ensures { result ≡ is_text_field name.now head.now }
{
    match field_value(head.fields.as_slice(), name) {
        Some(value) => is_text(value),
        None => true,
    }
}

/// Whether the conditions on ETags are UTF-8: If-Match and If-None-Match.
#[tactic(auto, unfolding(crate::specs::Fields::has_texts))]
pub(crate) fn has_texts(head: &Head) -> bool
    ensures { result ≡ has_texts head.now }
{
    is_text_field(head, b"if-match") && is_text_field(head, b"if-none-match")
}

/// Whether what a PUT sends of its content is UTF-8: its ETag, its media type and its metadata.
#[tactic(auto, unfolding(crate::specs::Fields::has_put_texts))]
pub(crate) fn has_put_texts(head: &Head, metadata: &SentMetadata) -> bool
    requires { metadata.now ≡ meta_of head.now.fields }
    ensures { result ≡ has_put_texts head.now }
{
    is_text_field(head, b"etag") && is_text_field(head, b"content-type") && metadata.are_texts()
}

/// Whether the media type has at most 256 bytes, where there is one.
fn is_kind_if_any(head: &Head) -> bool
    ensures { result ≡ is_kind_if_any (value_of (codes "content-type") head.now.fields) }
{
    match field_value(head.fields.as_slice(), b"content-type") {
        Some(value) => value.len() <= MediaType::MOST,
        None => true,
    }
}

/// Whether the media type and the metadata of a PUT are within their limits.
#[tactic(auto, unfolding(crate::specs::Fields::has_put_sizes))]
pub(crate) fn has_put_sizes(head: &Head, metadata: &SentMetadata) -> bool
    requires { metadata.now ≡ meta_of head.now.fields }
    ensures { result ≡ has_put_sizes head.now }
{
    is_kind_if_any(head) && metadata.are_within()
}

pub(crate) fn is_without_length(framing: Framing) -> bool
    ensures { result ≡ is_without_length framing }
{
    framing == Framing::Empty
}

pub(crate) fn is_above(largest: u64, framing: Framing) -> bool
    ensures { result ≡ is_above largest framing }
{
    match framing {
        Framing::Length(length) => largest < length,
        Framing::Empty | Framing::Chunked => false,
    }
}

/// How the 400 names what of a target is wrong.
pub(crate) fn invalid_by(fault: WordFault) -> Invalid
    ensures { result ≡ invalid_by fault }
{
    match fault {
        WordFault::BadEscape => Invalid::Escape,
        WordFault::BadUtf8 => Invalid::Utf8,
        WordFault::BadName => Invalid::Name,
        WordFault::BadLimit => Invalid::Limit,
        WordFault::BadFormat => Invalid::Format,
        WordFault::NotPath | WordFault::OutOfMemory => Invalid::Target,
    }
}

/// A text of a target as a name.
pub(crate) fn name_of<const MOST: usize>(text: Text) -> Name<MOST>
    requires { is_name MOST text ≡ true }
    ensures { result ≡ text }
{
    Name::new(text).unwrap()
}

/// How the rows of a listing are written.
pub(crate) fn listing_form(query: &Query) -> ListingForm
    ensures { result ≡ listing_form query.now }
{
    if query.json {
        ListingForm::Json
    } else {
        ListingForm::Plain
    }
}
