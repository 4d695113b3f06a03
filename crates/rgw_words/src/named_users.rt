//! The users that words name.
ghost use Rattle.std.specs.Prelude.{◌≡◌, None, Some, IfOk, IsErrOf, MatchOption};
ghost use Rattle.rgw_words.specs.NamedUsers.{listed_users, named_users};

use crate::fault::WordsFault;
use std::alloc::Global;
use swift_auth::{Users, UsersFault};

/// The users of this text, or the standard user where there is none.
pub(crate) fn named_users(alloc: Global, text: Option<&str>) -> Result<Users, WordsFault>
    ensures ok { IfOk result (λ users. MatchOption text.entry (named_users None ≡ Some users) (λ text. named_users (Some text.now) ≡ Some users)) }
    ensures refused { IsErrOf result WordsFault.Refused → MatchOption text.entry ⊥ (λ text. named_users (Some text.now) ≡ None) }
{
    match text {
        None => standard_users(alloc),
        Some(text) => listed_users(alloc, text),
    }
}

fn standard_users(alloc: Global) -> Result<Users, WordsFault>
    ensures ok { IfOk result (λ users. named_users None ≡ Some users) }
    ensures memory { IsErrOf result WordsFault.Refused → ⊥ }
{
    match Users::standard(alloc) {
        Ok(users) => Ok(users),
        Err(_) => Err(WordsFault::OutOfMemory),
    }
}

fn listed_users(alloc: Global, text: &str) -> Result<Users, WordsFault>
    ensures ok { IfOk result (λ users. listed_users text.now ≡ Some users) }
    ensures refused { IsErrOf result WordsFault.Refused → listed_users text.now ≡ None }
{
    match Users::read(alloc, text) {
        Ok(users) => Ok(users),
        Err(UsersFault::BadUsers) => Err(WordsFault::Refused),
        Err(UsersFault::OutOfMemory) => Err(WordsFault::OutOfMemory),
    }
}
