// The read and write lists of a container.
ghost use Rattle.std.specs.Prelude.{◌≡◌};
ghost use Rattle.swift_auth.specs.Lists.{member_in, has_word, is_named_by, names, is_public, is_listed};

use crate::User;

/// The word that lets anybody read.
const ANYBODY: &str = ".r:*";

/// The word that, beside the one for anybody, lets anybody list.
const LISTINGS: &str = ".rlistings";

/// The member that a part of a list is: its text without the blanks round it.
fn member_in(part: &[u8]) -> &[u8]
    ensures { result.now ≡ member_in part.now }
{
    part.trim_ascii()
}

/// Whether this word is a member of the list.
#[tactic(auto, unfolding(crate::specs::Lists::has_word))]
fn has_word(list: &[u8], word: &str) -> bool
    ensures { result ≡ has_word list.now word.now }
{
    list.split(|byte| *byte == b',')
        .any(|part| member_in(part) == word.as_bytes())
}

/// Whether a member names the user.
fn is_named_by(member: &[u8], user: &User) -> bool
    ensures { result ≡ is_named_by member.now user.now }
{
    member == user.full_name().as_bytes()
        || (member == user.account().as_bytes() && member != LISTINGS.as_bytes())
}

/// Whether some member of the list names the user.
#[tactic(auto, unfolding(crate::specs::Lists::names))]
pub fn names(list: &[u8], user: &User) -> bool
    ensures { result ≡ names list.now user.now }
{
    list.split(|byte| *byte == b',')
        .any(|part| is_named_by(member_in(part), user))
}

/// Whether anybody may read.
pub fn is_public(list: &[u8]) -> bool
    ensures { result ≡ is_public list.now }
{
    has_word(list, ANYBODY)
}

/// Whether anybody may list.
pub fn is_listed(list: &[u8]) -> bool
    ensures { result ≡ is_listed list.now }
{
    is_public(list) && has_word(list, LISTINGS)
}
