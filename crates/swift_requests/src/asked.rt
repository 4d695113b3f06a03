//! What a request asks.
ghost use Rattle.std.specs.Prelude.{◌≡◌, IfOk, true};
ghost use Rattle.swift_words.specs.Targets.{has_names};
ghost use Rattle.swift_requests.specs.Asks.{asked_at, asked_of};

use crate::account::account_asked;
use crate::container::container_asked;
use crate::form::{invalid_by, name_of};
use crate::login::auth_asked;
use crate::object::object_asked;
use http_model::Head;
use list_words::ListCommand;
use rgw_types::{Bytes, Text};
use std::alloc::{AllocError, Global};
use swift_auth::Users;
use swift_reply::{ListingForm, SwiftRefusal};
use swift_words::{Query, Target, WordFault, read_target};
use task_account::AccountCommand;
use task_container::ContainerCommand;
use task_words::{Asker, GetCommand, PutCommand};

/// The most bytes of a target.
const TARGET_LIMIT: usize = 8192;

/// What a request asks, and by whom, or why it is refused before a container is looked up.
#[derive(Drop)]
pub enum Asked {
    /// An HTTP/1.1 head has not just one Host field.
    BadHost,
    Refused(SwiftRefusal),
    /// A user is let in: the host that the request names, and the account and the token of the user.
    Login {
        host: Bytes,
        account: Text,
        token: Text,
    },
    /// A PUT of an object, for which the row of its container says whether the asker may. It is fed its body.
    Put {
        asker: Asker,
        command: PutCommand,
    },
    /// A request that wants no body.
    Unfed {
        asker: Asker,
        command: UnfedCommand,
    },
}

/// What a request asks that wants no body.
#[derive(Debug, Drop)]
pub enum UnfedCommand {
    /// A GET or a HEAD of an object, for which the row of its container says whether the asker may.
    Get(GetCommand),
    /// A GET of a container, and how its rows are written. The row of the container says whether the asker may.
    Listing(ListCommand, ListingForm),
    /// A HEAD of a container, for which its row says whether the asker may; or a change of one, by a user of the
    /// account.
    Container(ContainerCommand),
    /// A GET or a HEAD of an account by a user of it, and how the rows of a listing are written.
    Account(AccountCommand, ListingForm),
}

/// What is asked at what the target names, by the query behind it.
fn asked_at(
    alloc: Global,
    users: &Users,
    largest: u64,
    head: &Head,
    target: Target,
    query: Query,
) -> Result<Asked, AllocError>
    requires { has_names target ≡ true }
    ensures { IfOk result (λ asked. asked ≡ asked_at largest users.now head.now query target) }
{
    match target {
        Target::Unknown => Ok(Asked::Refused(SwiftRefusal::NoPath)),
        Target::Auth => auth_asked(alloc, users, largest, head),
        Target::Account(account) => account_asked(users, largest, head, query, account),
        Target::Container(account, container) => {
            let container = name_of(container);
            container_asked(alloc, users, largest, head, query, account, container)
        }
        Target::Thing(account, container, name) => {
            let (container, name) = (name_of(container), name_of(name));
            object_asked(alloc, users, largest, head, account, container, name)
        }
    }
}

/// What a request asks, and which of these users, where the largest object has so many bytes. The first of these
/// applies: `BadHost`; then `Refused` by `TargetTooLong` for a target of more than 8192 bytes, `Invalid` for one
/// that breaks its grammar, `NoPath` for no path of the API; then by these in this order:
///
/// | Refusal | Auth path | Account | Container | Object |
/// |---|---|---|---|---|
/// | `NoMethod` | all but GET | all but GET, HEAD | all but GET, HEAD, PUT, POST, DELETE | all but GET, HEAD, PUT, POST, DELETE, COPY |
/// | `NotBuilt` | | | | POST, DELETE, COPY, and a PUT with X-Copy-From |
/// | `Unauthorized` | the last X-Auth-User and X-Auth-Key are not of one user | no token, or a token of nobody | a token of nobody; and no token, but for GET and HEAD | the same |
/// | `Invalid(Value)` | | | PUT, POST: metadata or a list that is not UTF-8 | conditions on ETags that are not UTF-8; PUT: an ETag, a media type or metadata that are not |
/// | `Invalid(Meta)` | | | PUT, POST: metadata above their limits | PUT: a media type or metadata above their limits |
/// | `NoLength` | | | | PUT: no length is told, and no chunks are sent |
/// | `TooLarge` | a length above the largest | the same | the same | the same |
/// | `Denied(Account)` | | a user of another account | PUT, POST, DELETE: the same | |
///
/// and else what is asked. No row of a container is looked at.
#[tactic(auto, unfolding(crate::specs::Asks::asked_of))]
pub fn read_asked(
    alloc: Global,
    users: &Users,
    largest: u64,
    head: &Head,
) -> Result<Asked, AllocError>
    ensures { IfOk result (λ asked. asked ≡ asked_of largest users.now head.now) }
{
    if !head.has_host() {
        return Ok(Asked::BadHost);
    }
    if head.target.len() > TARGET_LIMIT {
        return Ok(Asked::Refused(SwiftRefusal::TargetTooLong));
    }
    match read_target(alloc, head.target.as_slice()) {
        Ok((target, query)) => asked_at(alloc, users, largest, head, target, query),
        Err(WordFault::OutOfMemory) => Err(AllocError),
        Err(fault) => Ok(Asked::Refused(SwiftRefusal::Invalid(invalid_by(fault)))),
    }
}
