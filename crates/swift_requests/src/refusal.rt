//! The first reason to refuse a request before a container is looked up.
ghost use Rattle.std.specs.Prelude.{◌≡◌};
ghost use Rattle.swift_requests.specs.Changes.{changes_of};
ghost use Rattle.swift_requests.specs.Metadata.{meta_of};
ghost use Rattle.swift_requests.specs.Refusals.{put_refusal, get_refusal, own_refusal, change_refusal};

use crate::asker::{denied_by, is_unknown, own_verdict};
use crate::changes::{SentChanges, has_change_texts};
use crate::form::{has_put_sizes, has_put_texts, has_texts, is_above, is_without_length};
use crate::metadata::SentMetadata;
use http_model::Head;
use swift_reply::{Invalid, SwiftRefusal};
use task_words::Asker;

/// The first reason to refuse a GET or a HEAD of an object by its fields.
#[tactic(auto, unfolding(crate::specs::Refusals::get_refusal))]
pub(crate) fn get_refusal(largest: u64, head: &Head) -> Option<SwiftRefusal>
    ensures { result ≡ get_refusal largest head.now }
{
    if !has_texts(head) {
        return Some(SwiftRefusal::Invalid(Invalid::Value));
    }
    if is_above(largest, head.framing) {
        return Some(SwiftRefusal::TooLarge);
    }
    None
}

/// The first reason to refuse a PUT of an object by its fields.
#[tactic(auto, unfolding(crate::specs::Refusals::put_refusal))]
pub(crate) fn put_refusal(
    largest: u64,
    head: &Head,
    metadata: &SentMetadata,
) -> Option<SwiftRefusal>
    requires { metadata.now ≡ meta_of head.now.fields }
    ensures { result ≡ put_refusal largest head.now }
{
    if !has_texts(head) || !has_put_texts(head, metadata) {
        return Some(SwiftRefusal::Invalid(Invalid::Value));
    }
    if !has_put_sizes(head, metadata) {
        return Some(SwiftRefusal::Invalid(Invalid::Meta));
    }
    if is_without_length(head.framing) {
        return Some(SwiftRefusal::NoLength);
    }
    if is_above(largest, head.framing) {
        return Some(SwiftRefusal::TooLarge);
    }
    None
}

/// The first reason to refuse what the users of the account alone may do.
#[tactic(auto, unfolding(crate::specs::Refusals::own_refusal))]
pub(crate) fn own_refusal(largest: u64, head: &Head, asker: &Asker) -> Option<SwiftRefusal>
    ensures { result ≡ own_refusal largest head.now asker.now }
{
    let verdict = own_verdict(asker);
    if is_unknown(verdict) {
        return Some(SwiftRefusal::Unauthorized);
    }
    if is_above(largest, head.framing) {
        return Some(SwiftRefusal::TooLarge);
    }
    denied_by(verdict)
}

/// The first reason to refuse a change of a container by its fields.
#[tactic(auto, unfolding(crate::specs::Refusals::change_refusal))]
pub(crate) fn change_refusal(
    largest: u64,
    head: &Head,
    asker: &Asker,
    sent: &SentChanges,
) -> Option<SwiftRefusal>
    requires { sent.now ≡ changes_of head.now.fields }
    ensures { result ≡ change_refusal largest head.now asker.now }
{
    let verdict = own_verdict(asker);
    if is_unknown(verdict) {
        return Some(SwiftRefusal::Unauthorized);
    }
    if !has_change_texts(head, sent) {
        return Some(SwiftRefusal::Invalid(Invalid::Value));
    }
    if !sent.are_within_limits() {
        return Some(SwiftRefusal::Invalid(Invalid::Meta));
    }
    if is_above(largest, head.framing) {
        return Some(SwiftRefusal::TooLarge);
    }
    denied_by(verdict)
}
