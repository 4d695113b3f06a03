//! The replies that the ends of tasks are, at the end of a buffer.
ghost use Rattle.std.specs.Prelude.{◌≡◌, ◌++◌, [], OnOk};
ghost use Rattle.swift_reply.specs.declared.reply.SwiftReply.TheVariants.{Refused};
ghost use Rattle.swift_reply.specs.Replies.{reply_text};
ghost use Rattle.task_words.specs.Spans.{is_partial};
ghost use Rattle.call_words.specs.Bodies.{IsWrong, broken_off};
ghost use Rattle.call_words.specs.Texts.{broken_text, refusal_at, denial_of, refusal_in, refusal_by, reply_in, span_shown, outcome_reply, list_reply, HasReply, front_if, text_if};

use http_chunks::BodyEnd;
use http_model::ReplyForm;
use std::alloc::{AllocError, Global};
use swift_auth::Rule;
use swift_reply::{
    Denial, Invalid, ListingForm, ShownSpan, SwiftRefusal, push_listed, push_refusal, push_same,
    push_shown_head, push_span_head, push_stored,
};
use task_words::{MapReply, Outcome, Refusal, Span};

fn denial_of(rule: Rule) -> Denial
    ensures { result ≡ denial_of rule }
{
    match rule {
        Rule::Account => Denial::Account,
        Rule::Read => Denial::Read,
        Rule::Write => Denial::Write,
    }
}

/// The refusal of the Swift API that a refusal by what is stored is.
pub(crate) fn refusal_in(refusal: Refusal) -> SwiftRefusal
    ensures { result ≡ refusal_in refusal }
{
    match refusal {
        Refusal::Unauthorized => SwiftRefusal::Unauthorized,
        Refusal::Denied(rule) => SwiftRefusal::Denied(denial_of(rule)),
        Refusal::NoContainer => SwiftRefusal::NoContainer,
        Refusal::NoObject => SwiftRefusal::NoObject,
        Refusal::NotMet => SwiftRefusal::NotMet,
        Refusal::NoRange { size } => SwiftRefusal::NoRange { size },
        Refusal::OtherEtag => SwiftRefusal::OtherEtag,
    }
}

/// Whether a reply says which bytes it has: a range was asked for, and can be had.
fn is_partial(asked: Option<Span>, size: u64) -> bool
    ensures { result ≡ is_partial asked size }
{
    match asked {
        None => false,
        Some(Span::Between(first, last)) => first <= last,
        Some(Span::From(_)) => true,
        Some(Span::Last(_)) => size != 0,
    }
}

/// Adds what is written before the bytes of an object where a task was replied so, and this range was asked
/// for: the head of the reply that shows one, or all of another.
pub fn push_map_reply(
    out: &mut Vec<u8>,
    reply: &MapReply,
    asked: Option<Span>,
    form: ReplyForm,
) -> Result<(), AllocError>
    requires { HasReply (reply_in asked reply.now) }
    ensures { OnOk result (out.new.items ≡ out.old.items ++ front_if form (reply_in asked reply.now)) }
{
    match reply {
        MapReply::Stored { etag, stamp } => push_stored(out, etag, *stamp, form),
        MapReply::Same { etag, stamp } => push_same(out, etag, *stamp, form),
        MapReply::Refused(refusal) => push_refusal(out, &refusal_in(*refusal), form),
        MapReply::Counted { .. } | MapReply::Listed(_) => unreachable!(),
        MapReply::Shown {
            kind,
            meta,
            etag,
            stamp,
            size,
            start,
            count,
        } => {
            let kind = kind.as_text();
            if is_partial(asked, *size) {
                let span = ShownSpan {
                    start: *start,
                    count: *count,
                };
                push_span_head(out, kind, meta, etag, *stamp, *size, span, form)
            } else {
                push_shown_head(out, kind, meta, etag, *stamp, *size, form)
            }
        }
    }
}

/// The refusal that an end of a task without a reply by what is stored is.
fn refusal_by(outcome: &Outcome) -> Option<SwiftRefusal>
    ensures { result ≡ refusal_by outcome.now }
{
    match outcome {
        Outcome::Busy { id } => Some(SwiftRefusal::Busy { id: *id }),
        Outcome::MovedOften => Some(SwiftRefusal::MovedOften),
        Outcome::RacedOften => Some(SwiftRefusal::RacedOften),
        Outcome::LateTag => Some(SwiftRefusal::LateTag),
        Outcome::NoSpace { free, needed } => Some(SwiftRefusal::NoSpace {
            free: *free,
            needed: *needed,
        }),
        Outcome::Done(_) | Outcome::BodyFailed | Outcome::LateRead { .. } => None,
    }
}

/// Adds what is written before the bytes of an object where a task ended so, and this range was asked for. An
/// end that is not replied adds nothing.
pub fn push_outcome(
    out: &mut Vec<u8>,
    outcome: &Outcome,
    asked: Option<Span>,
    form: ReplyForm,
) -> Result<(), AllocError>
    requires { HasReply (outcome_reply asked outcome.now) }
    ensures { OnOk result (out.new.items ≡ out.old.items ++ front_if form (outcome_reply asked outcome.now)) }
{
    if let Outcome::Done(reply) = outcome {
        return push_map_reply(out, reply, asked, form);
    }
    match refusal_by(outcome) {
        Some(refusal) => push_refusal(out, &refusal, form),
        None => unreachable!(),
    }
}

/// Adds the reply to a listing whose task ended so. An end that is not replied adds nothing.
pub fn push_list_outcome(
    alloc: Global,
    out: &mut Vec<u8>,
    outcome: &Outcome,
    listing: ListingForm,
    form: ReplyForm,
) -> Result<(), AllocError>
    requires { HasReply (list_reply listing outcome.now) }
    ensures { OnOk result (out.new.items ≡ out.old.items ++ text_if form (list_reply listing outcome.now) []) }
{
    match outcome {
        Outcome::Done(MapReply::Listed(rows)) => push_listed(alloc, out, rows, listing, form),
        Outcome::Done(MapReply::Refused(refusal)) => {
            push_refusal(out, &refusal_in(*refusal), form)
        }
        Outcome::Done(_) => unreachable!(),
        _ => match refusal_by(outcome) {
            Some(refusal) => push_refusal(out, &refusal, form),
            None => unreachable!(),
        },
    }
}

/// The refusal of a body that was wanted and broke off.
fn refusal_at(why: BodyEnd) -> Option<SwiftRefusal>
    ensures { result ≡ refusal_at (broken_off why) }
{
    match why {
        BodyEnd::BadChunk => Some(SwiftRefusal::Invalid(Invalid::Chunk)),
        BodyEnd::TooLarge => Some(SwiftRefusal::TooLarge),
        BodyEnd::Whole | BodyEnd::Cut => None,
    }
}

/// Adds the refusal of a body that was wanted and broke off.
pub fn push_broken_body(out: &mut Vec<u8>, why: BodyEnd, form: ReplyForm) -> Result<(), AllocError>
    requires { IsWrong why }
    ensures { OnOk result (out.new.items ≡ out.old.items ++ broken_text form why) }
{
    match refusal_at(why) {
        Some(refusal) => push_refusal(out, &refusal, form),
        None => unreachable!(),
    }
}
