//! The replies that the ends of requests on containers and accounts are, at the end of a buffer.
ghost use Rattle.std.specs.Prelude.{◌≡◌, ◌++◌, [], IfOk, OnOk};
ghost use Rattle.swift_auth.specs.Policies.{is_of};
ghost use Rattle.swift_reply.specs.Replies.{reply_text};
ghost use Rattle.call_words.specs.Texts.{container_refusal_in, container_reply_in, container_reply, account_reply};

use crate::reply::refusal_in;
use http_model::ReplyForm;
use std::alloc::{AllocError, Global};
use swift_auth::{Deed, Verdict, judge};
use swift_reply::{
    ListingForm, SwiftRefusal, push_accepted, push_account_counted, push_account_listed,
    push_counted, push_created, push_done, push_refusal,
};
use task_account::{AccountOutcome, AccountReply};
use task_container::{ContainerOutcome, ContainerRefusal, ContainerReply};
use task_words::Asker;

/// Whether who asks is a user of the account of the path.
fn is_own(asker: &Asker) -> bool
    ensures { result ≡ is_of asker.now.account asker.now.user }
{
    judge(asker.user.as_ref(), &asker.account, None, Deed::OwnAccount) == Verdict::Granted
}

/// The refusal of the Swift API that one of a request on a container is.
fn container_refusal_in(refusal: &ContainerRefusal) -> Result<SwiftRefusal, AllocError>
    ensures { IfOk result (λ why. why ≡ container_refusal_in refusal.now) }
{
    Ok(match refusal {
        ContainerRefusal::ByRow(refusal) => refusal_in(*refusal),
        ContainerRefusal::NotYours => SwiftRefusal::NotYours,
        ContainerRefusal::NotEmpty { name } => SwiftRefusal::NotEmpty {
            name: name.clone()?,
        },
        ContainerRefusal::Unsettled { name } => SwiftRefusal::Unsettled {
            name: name.clone()?,
        },
    })
}

/// Adds the reply on a container.
fn push_container_reply(
    out: &mut Vec<u8>,
    asker: &Asker,
    reply: &ContainerReply,
    form: ReplyForm,
) -> Result<(), AllocError>
    ensures { OnOk result (out.new.items ≡ out.old.items ++ reply_text form (container_reply_in asker.now reply.now) []) }
{
    match reply {
        ContainerReply::Counted {
            row,
            objects,
            bytes,
        } => push_counted(out, row, *objects, *bytes, is_own(asker), form),
        ContainerReply::Made => push_created(out, form),
        ContainerReply::Accepted => push_accepted(out, form),
        ContainerReply::Changed | ContainerReply::Removed => push_done(out, form),
        ContainerReply::Refused(refusal) => {
            let refusal = container_refusal_in(refusal)?;
            push_refusal(out, &refusal, form)
        }
    }
}

/// Adds the reply to a request on a container that ended so. Who asks as a user of its account is shown its lists.
pub fn push_container_outcome(
    out: &mut Vec<u8>,
    asker: &Asker,
    outcome: &ContainerOutcome,
    form: ReplyForm,
) -> Result<(), AllocError>
    ensures { OnOk result (out.new.items ≡ out.old.items ++ reply_text form (container_reply asker.now outcome.now) []) }
{
    match outcome {
        ContainerOutcome::Done(reply) => push_container_reply(out, asker, reply, form),
        ContainerOutcome::Busy { id } => push_refusal(out, &SwiftRefusal::Busy { id: *id }, form),
        ContainerOutcome::MovedOften => push_refusal(out, &SwiftRefusal::MovedOften, form),
        ContainerOutcome::RacedOften => push_refusal(out, &SwiftRefusal::RacedOften, form),
    }
}

/// Adds the reply to a request on an account that ended so, with its rows in this form.
pub fn push_account_outcome(
    alloc: Global,
    out: &mut Vec<u8>,
    outcome: &AccountOutcome,
    listing: ListingForm,
    form: ReplyForm,
) -> Result<(), AllocError>
    ensures { OnOk result (out.new.items ≡ out.old.items ++ reply_text form (account_reply listing outcome.now) []) }
{
    match outcome {
        AccountOutcome::Done(
            AccountReply::Counted {
                containers,
                objects,
                bytes,
            },
        ) => push_account_counted(out, *containers, *objects, *bytes, form),
        AccountOutcome::Done(AccountReply::Listed(rows)) => {
            push_account_listed(alloc, out, rows, listing, form)
        }
        AccountOutcome::MovedOften => push_refusal(out, &SwiftRefusal::MovedOften, form),
    }
}
