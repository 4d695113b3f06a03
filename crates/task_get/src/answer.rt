//! The reply to a GET or a HEAD, by what the head shows (RFC 9110, sections 13 and 14).
ghost use Rattle.std.specs.Prelude.{◌≡◌, ◌+◌, ◌≤◌, Some, None, IfSome};
ghost use Rattle.task_words.specs.Answers.{is_unmet, is_had, span_of};
ghost use Rattle.task_get.specs.Replies.{reply_to, range_in};

use object_words::{Conditions, MediaType, etag_digits, meets};
use rgw_types::{Pairs, Stamp};
use task_words::{ByteRange, GetCommand, MapReply, Refusal, Span, bytes_taken};

/// Whether If-Match fails or, without it, If-Unmodified-Since.
fn is_unmet(when: &Conditions, etag: &[u8; 16], stamp: &Stamp) -> bool
    ensures { result ≡ is_unmet when.now.matches when.now.unmodified etag.now stamp.now }
{
    match (&when.matches, when.unmodified) {
        (Some(rule), _) => !meets(rule, &etag_digits(etag)),
        (None, Some(second)) => second < stamp.micros / 1_000_000,
        (None, None) => false,
    }
}

/// Whether the client has the object, by If-None-Match or, without it, by If-Modified-Since.
fn is_had(when: &Conditions, etag: &[u8; 16], stamp: &Stamp) -> bool
    ensures { result ≡ is_had when.now.none when.now.modified etag.now stamp.now }
{
    match (&when.none, when.modified) {
        (Some(rule), _) => meets(rule, &etag_digits(etag)),
        (None, Some(second)) => stamp.micros / 1_000_000 <= second,
        (None, None) => false,
    }
}

/// The range that is asked for, where the bytes are wanted.
fn span_of(get: &GetCommand) -> Option<Span>
    ensures { result ≡ span_of get.now }
{
    if get.body { get.span } else { None }
}

/// The reply where an object is there, and the range of its bytes where it shows one.
#[derive(Drop)]
pub struct LiveReply {
    pub reply: MapReply,
    pub range: Option<ByteRange>,
}

/// The reply where an object of `size` bytes with these attributes is there.
pub fn live_reply(
    get: &GetCommand,
    size: u64,
    kind: MediaType,
    meta: Pairs,
    etag: [u8; 16],
    stamp: Stamp,
) -> LiveReply
    ensures reply { result.reply ≡ reply_to get.now size kind meta etag stamp }
    ensures range { result.range ≡ range_in result.reply }
    ensures inside { IfSome result.range (λ range. range.start + range.count ≤ size) }
{
    if is_unmet(&get.when, &etag, &stamp) {
        return unshown(MapReply::Refused(Refusal::NotMet));
    }
    if is_had(&get.when, &etag, &stamp) {
        return unshown(MapReply::Same { etag, stamp });
    }
    match bytes_taken(span_of(get), size) {
        None => unshown(MapReply::Refused(Refusal::NoRange { size })),
        Some(range) => LiveReply {
            reply: MapReply::Shown {
                kind,
                meta,
                etag,
                stamp,
                size,
                start: range.start,
                count: range.count,
            },
            range: Some(range),
        },
    }
}

/// A reply that shows no bytes.
fn unshown(reply: MapReply) -> LiveReply
    ensures reply { result.reply ≡ reply }
    ensures range { result.range ≡ None }
{
    LiveReply { reply, range: None }
}
