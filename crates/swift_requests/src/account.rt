//! What is asked of accounts.
ghost use Rattle.std.specs.Prelude.{◌≡◌, IfOk};
ghost use Rattle.swift_requests.specs.AccountCommands.{account_listing, account_command};
ghost use Rattle.swift_requests.specs.Asks.{account_asked_by, account_asked};

use crate::asker::asker_of;
use crate::form::listing_form;
use crate::method::is_look;
use crate::refusal::own_refusal;
use crate::{Asked, UnfedCommand};
use http_model::Head;
use rgw_types::Text;
use std::alloc::AllocError;
use swift_auth::Users;
use swift_reply::{SwiftRefusal, TargetKind};
use swift_words::Query;
use task_account::{AccountCommand, AccountListing};
use task_words::Asker;

/// The listing of an account's containers that a query asks for.
fn account_listing(query: Query) -> AccountListing
    ensures { result ≡ account_listing query }
{
    AccountListing {
        limit: query.limit,
        marker: query.marker,
        end_marker: query.end_marker,
        prefix: query.prefix,
        delimiter: query.delimiter,
    }
}

/// What a GET or a HEAD asks of an account.
fn account_command(head: &Head, query: Query) -> AccountCommand
    ensures { result ≡ account_command head.now query }
{
    if head.is_get() {
        AccountCommand::List(account_listing(query))
    } else {
        AccountCommand::Head
    }
}

/// What is asked of an account, and by whom.
fn account_asked_by(largest: u64, head: &Head, query: Query, asker: Option<Asker>) -> Asked
    ensures { result ≡ account_asked_by largest head.now query asker }
{
    let Some(asker) = asker else {
        return Asked::Refused(SwiftRefusal::Unauthorized);
    };
    if let Some(refusal) = own_refusal(largest, head, &asker) {
        return Asked::Refused(refusal);
    }
    let form = listing_form(&query);
    let command = UnfedCommand::Account(account_command(head, query), form);
    Asked::Unfed { asker, command }
}

/// What is asked of an account.
pub(crate) fn account_asked(
    users: &Users,
    largest: u64,
    head: &Head,
    query: Query,
    account: Text,
) -> Result<Asked, AllocError>
    ensures { IfOk result (λ asked. asked ≡ account_asked largest users.now head.now query account) }
{
    if !is_look(head) {
        let refusal = SwiftRefusal::NoMethod(TargetKind::Account);
        return Ok(Asked::Refused(refusal));
    }
    let asker = asker_of(users, head, account)?;
    Ok(account_asked_by(largest, head, query, asker))
}
