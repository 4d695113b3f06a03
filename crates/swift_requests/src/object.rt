//! What is asked of objects.
ghost use Rattle.std.specs.Prelude.{◌≡◌, IfOk, true};
ghost use Rattle.http_model.specs.Forms.{is_put};
ghost use Rattle.swift_requests.specs.Asks.{is_taken, put_asked, get_asked, object_asked_by, object_asked};

use crate::asker::asker_of;
use crate::command::{conditions, kind, span};
use crate::etag::sent_etag;
use crate::form::is_sent;
use crate::metadata::SentMetadata;
use crate::method::{has_object_method, is_look};
use crate::refusal::{get_refusal, put_refusal};
use crate::{Asked, UnfedCommand};
use http_model::Head;
use object_words::{BucketName, ObjectName};
use rgw_types::Text;
use std::alloc::{AllocError, Global};
use swift_auth::Users;
use swift_reply::{SwiftRefusal, TargetKind};
use task_words::{Asker, GetCommand, PutCommand};

/// Whether a request for an object is served: a GET, a HEAD, or a PUT that copies nothing.
#[tactic(auto, unfolding(crate::specs::Asks::is_taken))]
fn is_taken(head: &Head) -> bool
    ensures { result ≡ is_taken head.now }
{
    is_look(head) || (head.is_put() && !is_sent(head, b"x-copy-from"))
}

/// What a PUT asks. Nobody may store without a token, whatever the row of the container says.
fn put_asked(
    alloc: Global,
    largest: u64,
    head: &Head,
    container: BucketName,
    name: ObjectName,
    asker: Asker,
) -> Result<Asked, AllocError>
    requires put { is_put head.now ≡ true }
    ensures { IfOk result (λ asked. asked ≡ put_asked largest head.now container name asker) }
{
    if asker.user.is_none() {
        return Ok(Asked::Refused(SwiftRefusal::Unauthorized));
    }
    let metadata = SentMetadata::read(alloc, head.fields.as_slice())?;
    if let Some(refusal) = put_refusal(largest, head, &metadata) {
        return Ok(Asked::Refused(refusal));
    }
    let command = PutCommand {
        container,
        name,
        kind: kind(alloc, head)?,
        meta: metadata.into_pairs(alloc)?,
        etag: sent_etag(alloc, head)?,
        when: conditions(alloc, head)?,
    };
    Ok(Asked::Put { asker, command })
}

/// What a GET or a HEAD asks.
fn get_asked(
    alloc: Global,
    largest: u64,
    head: &Head,
    container: BucketName,
    name: ObjectName,
    asker: Asker,
) -> Result<Asked, AllocError>
    ensures { IfOk result (λ asked. asked ≡ get_asked largest head.now container name asker) }
{
    if let Some(refusal) = get_refusal(largest, head) {
        return Ok(Asked::Refused(refusal));
    }
    let command = UnfedCommand::Get(GetCommand {
        container,
        name,
        when: conditions(alloc, head)?,
        span: span(head),
        body: head.is_get(),
    });
    Ok(Asked::Unfed { asker, command })
}

/// What is asked of an object, and by whom.
fn object_asked_by(
    alloc: Global,
    largest: u64,
    head: &Head,
    container: BucketName,
    name: ObjectName,
    asker: Option<Asker>,
) -> Result<Asked, AllocError>
    ensures { IfOk result (λ asked. asked ≡ object_asked_by largest head.now container name asker) }
{
    let Some(asker) = asker else {
        return Ok(Asked::Refused(SwiftRefusal::Unauthorized));
    };
    if head.is_put() {
        put_asked(alloc, largest, head, container, name, asker)
    } else {
        get_asked(alloc, largest, head, container, name, asker)
    }
}

/// What is asked of an object.
pub(crate) fn object_asked(
    alloc: Global,
    users: &Users,
    largest: u64,
    head: &Head,
    account: Text,
    container: BucketName,
    name: ObjectName,
) -> Result<Asked, AllocError>
    ensures { IfOk result (λ asked. asked ≡ object_asked largest users.now head.now account container name) }
{
    if !has_object_method(head) {
        let refusal = SwiftRefusal::NoMethod(TargetKind::Object);
        return Ok(Asked::Refused(refusal));
    }
    if !is_taken(head) {
        return Ok(Asked::Refused(SwiftRefusal::NotBuilt));
    }
    let asker = asker_of(users, head, account)?;
    object_asked_by(alloc, largest, head, container, name, asker)
}
