// Small callers that are proved from the public contracts alone.
ghost use Rattle.std.specs.Prelude.{◌≡◌, List, IfSome, IsTrue, option_map};
ghost use Rattle.swift_auth.specs.Users.{UserView, owner_of};
ghost use Rattle.swift_auth.specs.UsersTexts.{IsUsersText};
ghost use Rattle.swift_auth.specs.Policies.{verdict_of};

use super::*;
use rgw_types::Text;
use std::alloc::Global;

/// Whether the text lists users, unless memory is wanting.
fn lists_users(alloc: Global, text: &str) -> Option<bool>
    ensures listed { IfSome result (λ lists. IsTrue lists → (users : List UserView) × IsUsersText text.now users) }
    ensures none { IfSome result (λ lists. ¬ (IsTrue lists) → (users : List UserView) → ¬ (IsUsersText text.now users)) }
{
    match Users::read(alloc, text) {
        Ok(_) => Some(true),
        Err(UsersFault::BadUsers) => Some(false),
        Err(UsersFault::OutOfMemory) => None,
    }
}

/// What is said to a token on an account, if it is somebody's.
fn verdict_on_account(users: &Users, token: &[u8], account: &Text) -> Option<Verdict>
    ensures { result ≡ option_map (λ u. verdict_of (Some u) account.now None Deed.OwnAccount) (owner_of users.now token.now) }
{
    let user = users.who(token)?;
    Some(judge(Some(user), account, None, Deed::OwnAccount))
}

#[test]
fn callers_are_answered(rt: HostRuntime) -> Result<(), Fail> {
    let alloc = rt.alloc();
    assert_eq!(rt; lists_users(alloc, THREE), Some(true));
    assert_eq!(rt; lists_users(alloc, "[]"), Some(false));
    let users = Users::standard(alloc)?;
    let account = Text::from_str(alloc, "acme")?;
    assert!(rt; users.login(b"acme:ann", b"secret").is_some());
    assert_eq!(rt;
        verdict_on_account(&users, b"AUTH_tk1", &account),
        Some(Verdict::Granted)
    );
    assert_eq!(rt; verdict_on_account(&users, b"AUTH_tk2", &account), None);
    Ok(())
}
