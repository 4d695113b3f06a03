//! The ETags that a request sends.
ghost use Rattle.std.specs.Prelude.{◌≡◌, IfOk, true};
ghost use Rattle.swift_requests.specs.Etags.{without_quotes, etag_in, etags_in, rule_in, rule_of, sent_etag};
ghost use Rattle.swift_requests.specs.Fields.{is_text_field};
ghost use Rattle.std.specs.Prelude.{codes};

use http_model::{Head, field_value};
use object_words::{EtagRule, Texts};
use rgw_types::Text;
use std::alloc::{AllocError, Global};

/// The text without one pair of double quotes round it.
fn without_quotes(text: &str) -> &str
    ensures { result.now ≡ without_quotes text.now }
{
    if text.len() > 1 && text.starts_with('"') && text.ends_with('"') {
        &text[1..text.len() - 1]
    } else {
        text
    }
}

/// The ETag that a part of a list is.
fn etag_in(part: &str) -> &str
    ensures { result.now ≡ etag_in part.now }
{
    without_quotes(part.trim_ascii())
}

/// The ETags of a list by commas.
fn etags_in(alloc: Global, list: &str) -> Result<Texts, AllocError>
    ensures { IfOk result (λ etags. etags ≡ etags_in list.now) }
{
    let mut etags = Texts::new(alloc);
    for part in list.split(',') {
        etags.push(Text::from_str(alloc, etag_in(part))?)?;
    }
    Ok(etags)
}

/// What the value of a condition wants.
fn rule_in(alloc: Global, value: &str) -> Result<EtagRule, AllocError>
    ensures { IfOk result (λ rule. rule ≡ rule_in value.now) }
{
    if value == "*" {
        return Ok(EtagRule::Any);
    }
    Ok(EtagRule::OneOf(etags_in(alloc, value)?))
}

/// Which ETags the last field of this name wants, where one was sent: `*`, or a list by commas whose
/// members have lost the blanks round them and then one pair of double quotes (RFC 9110, sections 13.1.1
/// and 13.1.2). An empty value is a list with one empty text.
#[tactic(auto, unfolding(crate::specs::Etags::rule_of))]
pub(crate) fn etag_rule(
    alloc: Global,
    head: &Head,
    name: &[u8],
) -> Result<Option<EtagRule>, AllocError>
    requires { is_text_field name.now head.now ≡ true }
    ensures { IfOk result (λ rule. rule ≡ rule_of name.now head.now) }
{
    match field_value(head.fields.as_slice(), name) {
        Some(value) => Ok(Some(rule_in(alloc, str::from_utf8(value).unwrap())?)),
        None => Ok(None),
    }
}

/// The ETag that the content is to have, where a field was sent: the value of the last one without one pair
/// of double quotes. It may be a text that no content has.
#[tactic(auto, unfolding(crate::specs::Etags::sent_etag))]
pub(crate) fn sent_etag(alloc: Global, head: &Head) -> Result<Option<Text>, AllocError>
    requires { is_text_field (codes "etag") head.now ≡ true }
    ensures { IfOk result (λ etag. etag ≡ sent_etag head.now) }
{
    match field_value(head.fields.as_slice(), b"etag") {
        Some(value) => {
            let etag = without_quotes(str::from_utf8(value).unwrap());
            Ok(Some(Text::from_str(alloc, etag)?))
        }
        None => Ok(None),
    }
}
