//! How a user is let in.
ghost use Rattle.std.specs.Prelude.{◌≡◌, IfOk, option_copied};
ghost use Rattle.swift_requests.specs.Logins.{login_of, host_of};
ghost use Rattle.swift_requests.specs.Asks.{login_asked, auth_asked};

use crate::Asked;
use crate::form::is_above;
use http_model::{Head, field_value};
use rgw_types::Bytes;
use std::alloc::{AllocError, Global};
use swift_auth::{User, Users};
use swift_reply::{SwiftRefusal, TargetKind};

/// The user whose full name and key were sent, in the last X-Auth-User and the last X-Auth-Key.
#[tactic(auto, unfolding(crate::specs::Logins::login_of))]
fn login_of<'a>(users: &'a Users, head: &Head) -> Option<&'a User>
    ensures { option_copied result ≡ login_of users.now head.now }
{
    let fields = head.fields.as_slice();
    let name = field_value(fields, b"x-auth-user")?;
    let key = field_value(fields, b"x-auth-key")?;
    users.login(name, key)
}

/// The host that the request names: the last Host, or `localhost` where there is none.
#[tactic(auto, unfolding(crate::specs::Logins::host_of))]
fn host_of(head: &Head) -> &[u8]
    ensures { result.now ≡ host_of head.now }
{
    match field_value(head.fields.as_slice(), b"host") {
        Some(host) => host,
        None => b"localhost",
    }
}

/// What a login of this user asks, where there is one.
fn login_asked(
    alloc: Global,
    largest: u64,
    head: &Head,
    login: Option<&User>,
) -> Result<Asked, AllocError>
    ensures { IfOk result (λ asked. asked ≡ login_asked largest head.now (option_copied login.entry)) }
{
    let Some(user) = login else {
        return Ok(Asked::Refused(SwiftRefusal::Unauthorized));
    };
    if is_above(largest, head.framing) {
        return Ok(Asked::Refused(SwiftRefusal::TooLarge));
    }
    Ok(Asked::Login {
        host: Bytes::from_slice(alloc, host_of(head))?,
        account: user.account().clone()?,
        token: user.token().clone()?,
    })
}

/// What is asked where tokens are asked for.
pub(crate) fn auth_asked(
    alloc: Global,
    users: &Users,
    largest: u64,
    head: &Head,
) -> Result<Asked, AllocError>
    ensures { IfOk result (λ asked. asked ≡ auth_asked largest users.now head.now) }
{
    if !head.is_get() {
        let refusal = SwiftRefusal::NoMethod(TargetKind::Auth);
        return Ok(Asked::Refused(refusal));
    }
    login_asked(alloc, largest, head, login_of(users, head))
}
