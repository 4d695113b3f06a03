ghost use Rattle.std.specs.Prelude.{◌≡◌, ◌==◌, ◌&&◌, ◌||◌, nat_le, nat_lt, length, true, false, bytes_eq, IfOk};
ghost use Rattle.std.specs.List.{list_all};
ghost use Rattle.std.specs.Char.{is_ascii_graphic};
ghost use Rattle.swift_auth.specs.Faults.{Reads};
ghost use Rattle.swift_auth.specs.Users.{account_of, is_name_byte, is_name, is_secret, is_user};
ghost use Rattle.swift_auth.specs.UsersTexts.{if_user};

use crate::UsersFault;
use rgw_types::Text;
use std::alloc::{AllocError, Global};
use std::marker::Model;

/// The most bytes of an account, and of a name in it.
const NAME_LIMIT: usize = 64;

/// The most bytes of a key, and of a token.
const SECRET_LIMIT: usize = 128;

/// A user of an account.
///
/// The full name is `account:name`, each of 1 to 64 letters, digits, `_`, `.` or `-`. The key and the
/// token have 1 to 128 visible ASCII characters. There is no `Debug`, so that no log shows them.
#[derive(Drop)]
pub struct User {
    account: Text,
    full_name: Text,
    key: Text,
    token: Text,
}

impl Model for User {
    ghost use Rattle.std.specs.Prelude.{◌≡◌, true};
    ghost use Rattle.swift_auth.specs.Users.{UserView, account_in, is_user};

    ghost Value = { UserView };

    ghost view = { λ u. record { full_name = u.full_name; key = u.key; token = u.token } };

    ghost invariant = { λ u. (u.account ≡ account_in u.full_name)
        × (is_user (record { full_name = u.full_name; key = u.key; token = u.token }) ≡ true) };
}

impl User {
    /// The user with these texts, where they make one.
    pub(crate) fn new(
        alloc: Global,
        full_name: &str,
        key: &str,
        token: &str,
    ) -> Result<User, UsersFault>
        ensures { Reads result (if_user (record { full_name = full_name.now; key = key.now; token = token.now })) }
    {
        let Some((account, name)) = full_name.split_once(':') else {
            return Err(UsersFault::BadUsers);
        };
        if !has_user(account, name, key, token) {
            return Err(UsersFault::BadUsers);
        }
        Ok(User {
            account: Text::from_str(alloc, account)?,
            full_name: Text::from_str(alloc, full_name)?,
            key: Text::from_str(alloc, key)?,
            token: Text::from_str(alloc, token)?,
        })
    }

    /// The account.
    pub fn account(&self) -> &Text
        ensures { result.now ≡ account_of self.now }
    {
        &self.account
    }

    /// The full name, `account:name`.
    pub fn full_name(&self) -> &Text
        ensures { result.now ≡ self.now.full_name }
    {
        &self.full_name
    }

    /// The token that requests of this user carry.
    pub fn token(&self) -> &Text
        ensures { result.now ≡ self.now.token }
    {
        &self.token
    }

    /// Whether this is the user's token.
    pub(crate) fn has_token(&self, token: &[u8]) -> bool
        ensures { result ≡ bytes_eq self.now.token token.now }
    {
        are_same(self.token.as_bytes(), token)
    }

    /// Whether these are the user's full name and key.
    pub(crate) fn has_login(&self, full_name: &[u8], key: &[u8]) -> bool
        ensures { result ≡ (bytes_eq self.now.full_name full_name.now && bytes_eq self.now.key key.now) }
    {
        self.full_name.as_bytes() == full_name && are_same(self.key.as_bytes(), key)
    }
}

impl Clone for User {
    ghost use Rattle.std.specs.Prelude.{◌≡◌};

    ghost is_clone = { λ user copy. copy ≡ user };

    fn clone(&self) -> Result<User, AllocError> {
        Ok(User {
            account: self.account.clone()?,
            full_name: self.full_name.clone()?,
            key: self.key.clone()?,
            token: self.token.clone()?,
        })
    }
}

/// Whether the parts of a full name, the key and the token are within the limits.
fn has_user(account: &str, name: &str, key: &str, token: &str) -> bool
    ensures { result ≡ (is_name account.now && (is_name name.now && (is_secret key.now && is_secret token.now))) }
{
    is_name(account.as_bytes())
        && is_name(name.as_bytes())
        && is_secret(key.as_bytes())
        && is_secret(token.as_bytes())
}

/// Whether the text may be an account, or a name in one.
#[tactic(auto, unfolding(crate::specs::Users::is_name))]
fn is_name(text: &[u8]) -> bool
    ensures { result ≡ is_name text.now }
{
    !text.is_empty() && text.len() <= NAME_LIMIT && has_name_bytes(text)
}

fn has_name_bytes(text: &[u8]) -> bool
    ensures { result ≡ list_all is_name_byte text.now }
{
    text.iter().all(|byte| is_name_byte(*byte))
}

/// Whether the byte is a letter, a digit, `_`, `.` or `-`.
fn is_name_byte(byte: u8) -> bool
    ensures { result ≡ is_name_byte byte }
{
    byte.is_ascii_alphanumeric() || byte == b'_' || byte == b'.' || byte == b'-'
}

/// Whether the text may be a key or a token.
#[tactic(auto, unfolding(crate::specs::Users::is_secret))]
fn is_secret(text: &[u8]) -> bool
    ensures { result ≡ is_secret text.now }
{
    !text.is_empty() && text.len() <= SECRET_LIMIT && has_visible_bytes(text)
}

fn has_visible_bytes(text: &[u8]) -> bool
    ensures { result ≡ list_all is_ascii_graphic text.now }
{
    text.iter().all(|byte| byte.is_ascii_graphic())
}

/// Whether the two are the same bytes. Where they have one length each byte is looked at, wherever the
/// first difference is, so that the time a secret takes to compare does not tell how much of it was right.
fn are_same(secret: &[u8], sent: &[u8]) -> bool
    ensures { result ≡ bytes_eq secret.now sent.now }
{
    if secret.len() != sent.len() {
        return false;
    }
    let mut same = true;
    for (at, byte) in secret.iter().enumerate() {
        same &= *byte == sent[at];
    }
    same
}
