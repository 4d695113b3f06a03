// The users text by its rules, and the policy by its table.
mod callers;
mod texts;
mod verdicts;

use std::alloc::Global;
use std::test::Fail;
use swift_auth::{Deed, Rule, User, Users, UsersFault, Verdict, judge};

/// Three users of three accounts.
const THREE: &str = "[{\"user\":\"acme:ann\",\"key\":\"secret\",\"token\":\"AUTH_tk1\"},
    {\"user\":\"beta:bob\",\"key\":\"hush\",\"token\":\"AUTH_tk2\",\"more\":[1,{}]},
    {\"token\":\"AUTH_tk3\",\"key\":\"quiet\",\"user\":\"gamma:eve\"}]";

fn three(alloc: Global) -> Result<Users, UsersFault> {
    Users::read(alloc, THREE)
}

fn is_ann(user: Option<&User>) -> bool {
    user.is_some_and(|user| user.account().is("acme") && user.token().is("AUTH_tk1"))
}

fn is_eve(user: Option<&User>) -> bool {
    user.is_some_and(|user| user.full_name().is("gamma:eve") && user.account().is("gamma"))
}

#[test]
fn users_log_in_and_are_known_by_their_tokens(rt: HostRuntime) -> Result<(), Fail> {
    let users = three(rt.alloc())?;
    let count = users.as_slice().len();
    let is_first = users.first().full_name().is("acme:ann");
    let are_known = is_ann(users.login(b"acme:ann", b"secret")) && is_eve(users.who(b"AUTH_tk3"));
    drop(users);
    assert_eq!(rt; count, 3);
    assert!(rt; is_first && are_known);
    Ok(())
}

#[test]
fn others_are_not_known(rt: HostRuntime) -> Result<(), Fail> {
    let users = three(rt.alloc())?;
    for (user, key) in [
        ("acme:ann", "hush"),
        ("acme:ann", "secre"),
        ("acme:ann", ""),
        ("acme", "secret"),
        ("ann", "secret"),
        ("", ""),
    ] {
        assert!(rt; users.login(user.as_bytes(), key.as_bytes()).is_none());
    }
    for token in ["AUTH_tk", "AUTH_tk4", "AUTH_tk11", "auth_tk1", ""] {
        assert!(rt; users.who(token.as_bytes()).is_none());
    }
    Ok(())
}
