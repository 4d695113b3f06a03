ghost use Rattle.std.specs.Prelude.{◌≡◌, ◌≢◌, ◌↔◌, ◌∷◌, [], List, IsTrue, bytes_eq, option_copied, map, slice_get, IfOk};
ghost use Rattle.std.specs.List.{IsDistinct};
ghost use Rattle.swift_auth.specs.Users.{UserView, AreUsers, standard_user, logged_in, owner_of, IsTheOne};
ghost use Rattle.swift_auth.specs.UsersTexts.{IsUsersText};

use crate::users_text::read_users;
use crate::{User, UsersFault};
use rgw_types::{Items, Text};
use std::alloc::{AllocError, Global};
use std::collections::BTreeSet;
use std::marker::Model;

/// The text of the one standard user.
const STANDARD: &str = "[{\"user\":\"acme:ann\",\"key\":\"secret\",\"token\":\"AUTH_tk1\"}]";

/// The users of a gateway, in the order in which they were listed.
#[derive(Drop)]
pub struct Users {
    users: Items<User>,
}

impl Model for Users {
    ghost use Rattle.std.specs.Prelude.{List};
    ghost use Rattle.swift_auth.specs.Users.{UserView, AreUsers};

    ghost Value = { List UserView };

    ghost view = { λ u. u.users };

    ghost invariant = { λ u. AreUsers u.users };
}

impl Users {
    /// The most users.
    pub const MOST: usize = 1000;

    /// Reads a users text: a JSON array (RFC 8259) of 1 to 1000 objects with the text members `user`,
    /// `key` and `token`; further members are dropped, and of a repeated one the last counts. `user` is
    /// `account:name`, each of 1 to 64 letters, digits, `_`, `.` or `-`; `key` and `token` have 1 to 128
    /// visible ASCII characters. No two users have one `user`, and no two one `token`.
    ///
    /// `BadUsers` comes exactly where the text is none. Reading takes `n log n` comparisons for n users.
    pub fn read(alloc: Global, text: &str) -> Result<Users, UsersFault>
        ensures ok { IfOk result (IsUsersText text.now) }
        ensures bad { result ≡ Err UsersFault.BadUsers → (users : List UserView) → ¬ (IsUsersText text.now users) }
    {
        let users = read_users(alloc, text)?;
        if may_be(alloc, users.as_slice())? {
            Ok(Users { users })
        } else {
            Err(UsersFault::BadUsers)
        }
    }

    /// The users of a gateway to which none are given: one, `acme:ann`, with the key `secret` and the token
    /// `AUTH_tk1`. It fails for want of memory alone.
    pub fn standard(alloc: Global) -> Result<Users, UsersFault>
        ensures ok { IfOk result (λ users. users ≡ standard_user ∷ []) }
        ensures memory { result ≢ Err UsersFault.BadUsers }
    {
        Users::read(alloc, STANDARD)
    }

    /// The users, lent.
    pub fn as_slice(&self) -> &[User]
        ensures users { result.now ≡ self.now }
        ensures may_be { AreUsers self.now }
    {
        self.users.as_slice()
    }

    /// The first user.
    pub fn first(&self) -> &User
        ensures { slice_get self.now 0 ≡ Some result.now }
    {
        &self.users.as_slice()[0]
    }

    /// The user with this full name and this key.
    pub fn login(&self, user: &[u8], key: &[u8]) -> Option<&User>
        ensures found { option_copied result ≡ logged_in self.now user.now key.now }
        ensures only { IsTheOne (λ u. (u.full_name ≡ user.now) × (u.key ≡ key.now)) self.now (option_copied result) }
    {
        self.users
            .as_slice()
            .iter()
            .find(|one| one.has_login(user, key))
    }

    /// The user with this token. It takes a comparison for each user at most, none of which stops at a
    /// first difference.
    pub fn who(&self, token: &[u8]) -> Option<&User>
        ensures found { option_copied result ≡ owner_of self.now token.now }
        ensures only { IsTheOne (λ u. u.token ≡ token.now) self.now (option_copied result) }
    {
        self.users
            .as_slice()
            .iter()
            .find(|one| one.has_token(token))
    }
}

/// Whether no two of the texts are the same.
fn all_differ(alloc: Global, texts: &[&Text]) -> Result<bool, AllocError>
    ensures { IfOk result (λ differ. IsTrue differ ↔ IsDistinct bytes_eq (map (λ text. text.now) texts.now)) }
{
    let mut seen = BTreeSet::new(alloc);
    for text in texts {
        if !seen.insert(*text)? {
            return Ok(false);
        }
    }
    Ok(true)
}

/// Whether no two users have one full name.
fn names_differ(alloc: Global, users: &[User]) -> Result<bool, AllocError>
    ensures { IfOk result (λ differ. IsTrue differ ↔ IsDistinct bytes_eq (map (λ u. u.full_name) users.now)) }
{
    let names: Vec<&Text> = users.iter().map(User::full_name).collect(alloc)?;
    all_differ(alloc, &names)
}

/// Whether no two users have one token.
fn tokens_differ(alloc: Global, users: &[User]) -> Result<bool, AllocError>
    ensures { IfOk result (λ differ. IsTrue differ ↔ IsDistinct bytes_eq (map (λ u. u.token) users.now)) }
{
    let tokens: Vec<&Text> = users.iter().map(User::token).collect(alloc)?;
    all_differ(alloc, &tokens)
}

/// Whether they may be the users of a gateway.
fn may_be(alloc: Global, users: &[User]) -> Result<bool, AllocError>
    ensures { IfOk result (λ may. IsTrue may ↔ AreUsers users.now) }
{
    Ok(
        !users.is_empty()
            && users.len() <= Users::MOST
            && names_differ(alloc, users)?
            && tokens_differ(alloc, users)?,
    )
}
