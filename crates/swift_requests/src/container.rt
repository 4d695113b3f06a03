//! What is asked of containers.
ghost use Rattle.std.specs.Prelude.{◌≡◌, IfOk};
ghost use Rattle.swift_requests.specs.Asks.{look_asked, change_asked, delete_asked, container_asked_by, container_asked};

use crate::asker::asker_of;
use crate::changes::{SentChanges, container_changes};
use crate::form::{is_above, listing_form};
use crate::method::{has_container_method, is_delete, is_look};
use crate::refusal::{change_refusal, own_refusal};
use crate::{Asked, UnfedCommand};
use http_model::Head;
use list_words::ListCommand;
use object_words::BucketName;
use rgw_types::Text;
use std::alloc::{AllocError, Global};
use swift_auth::Users;
use swift_reply::{SwiftRefusal, TargetKind};
use swift_words::Query;
use task_container::ContainerCommand;
use task_words::Asker;

/// What a GET or a HEAD asks of a container.
fn look_asked(largest: u64, head: &Head, query: Query, container: BucketName, asker: Asker) -> Asked
    ensures { result ≡ look_asked largest head.now query container asker }
{
    if is_above(largest, head.framing) {
        return Asked::Refused(SwiftRefusal::TooLarge);
    }
    if !head.is_get() {
        let command = UnfedCommand::Container(ContainerCommand::Head { name: container });
        return Asked::Unfed { asker, command };
    }
    let form = listing_form(&query);
    let command = ListCommand {
        container,
        limit: query.limit,
        marker: query.marker,
        end_marker: query.end_marker,
        prefix: query.prefix,
        delimiter: query.delimiter,
    };
    let command = UnfedCommand::Listing(command, form);
    Asked::Unfed { asker, command }
}

/// What a PUT or a POST asks of a container.
fn change_asked(
    alloc: Global,
    largest: u64,
    head: &Head,
    name: BucketName,
    asker: Asker,
) -> Result<Asked, AllocError>
    ensures { IfOk result (λ asked. asked ≡ change_asked largest head.now name asker) }
{
    let sent = SentChanges::read(alloc, head.fields.as_slice())?;
    if let Some(refusal) = change_refusal(largest, head, &asker, &sent) {
        return Ok(Asked::Refused(refusal));
    }
    let changes = container_changes(alloc, head, sent)?;
    let command = if head.is_put() {
        ContainerCommand::Put { name, changes }
    } else {
        ContainerCommand::Post { name, changes }
    };
    let command = UnfedCommand::Container(command);
    Ok(Asked::Unfed { asker, command })
}

/// What a DELETE asks of a container.
fn delete_asked(largest: u64, head: &Head, name: BucketName, asker: Asker) -> Asked
    ensures { result ≡ delete_asked largest head.now name asker }
{
    if let Some(refusal) = own_refusal(largest, head, &asker) {
        return Asked::Refused(refusal);
    }
    let command = UnfedCommand::Container(ContainerCommand::Delete { name });
    Asked::Unfed { asker, command }
}

/// What is asked of a container, and by whom.
fn container_asked_by(
    alloc: Global,
    largest: u64,
    head: &Head,
    query: Query,
    name: BucketName,
    asker: Option<Asker>,
) -> Result<Asked, AllocError>
    ensures { IfOk result (λ asked. asked ≡ container_asked_by largest head.now query name asker) }
{
    let Some(asker) = asker else {
        return Ok(Asked::Refused(SwiftRefusal::Unauthorized));
    };
    if is_look(head) {
        return Ok(look_asked(largest, head, query, name, asker));
    }
    if is_delete(head) {
        return Ok(delete_asked(largest, head, name, asker));
    }
    change_asked(alloc, largest, head, name, asker)
}

/// What is asked of a container.
pub(crate) fn container_asked(
    alloc: Global,
    users: &Users,
    largest: u64,
    head: &Head,
    query: Query,
    account: Text,
    name: BucketName,
) -> Result<Asked, AllocError>
    ensures { IfOk result (λ asked. asked ≡ container_asked largest users.now head.now query account name) }
{
    if !has_container_method(head) {
        let refusal = SwiftRefusal::NoMethod(TargetKind::Container);
        return Ok(Asked::Refused(refusal));
    }
    let asker = asker_of(users, head, account)?;
    container_asked_by(alloc, largest, head, query, name, asker)
}
