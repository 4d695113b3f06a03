ghost use Rattle.std.specs.Prelude.{◌≡◌, ◌||◌, option_copied, bytes_eq};
ghost use Rattle.swift_auth.specs.Policies.{is_of, names_asker, found_under, lists_let, container_lets, rule_of, refused, verdict_of};

use crate::User;
use crate::access_list::{is_listed, is_public, names};
use object_words::Bucket;
use rgw_types::Text;

/// What a request does, as far as the policy looks at it.
#[derive(Clone, Copy, Debug, PartialEq, Eq)]
pub enum Deed {
    /// An account, or the making, changing or removing of a container.
    OwnAccount,
    /// Lists the objects of a container, or counts them.
    ListContainer,
    /// Reads an object.
    ReadThing,
    /// Makes, changes or removes an object.
    ChangeThing,
}

/// The rule by which a request is denied.
#[derive(Clone, Copy, Debug, PartialEq, Eq)]
pub enum Rule {
    /// Only users of the account may.
    Account,
    /// The read list lets the user neither read nor list.
    Read,
    /// The write list does not name the user.
    Write,
}

/// What the policy says to a request.
#[derive(Clone, Copy, Debug, PartialEq, Eq)]
pub enum Verdict {
    Granted,
    /// Nothing was sent that says who asks, and not everybody may.
    Unknown,
    /// It is known who asks, and this rule refuses it.
    Denied { rule: Rule },
}

impl Deed {
    /// The rule that refuses it.
    pub fn rule(self) -> Rule
        ensures { result ≡ rule_of self }
    {
        match self {
            Deed::OwnAccount => Rule::Account,
            Deed::ListContainer | Deed::ReadThing => Rule::Read,
            Deed::ChangeThing => Rule::Write,
        }
    }
}

/// Whether who asks is a user of the account.
fn is_of(account: &Text, user: Option<&User>) -> bool
    ensures { result ≡ is_of account.now (option_copied user.entry) }
{
    match user {
        Some(user) => user.account() == account,
        None => false,
    }
}

/// Whether the list names who asks.
fn names_asker(list: &Text, user: Option<&User>) -> bool
    ensures { result ≡ names_asker list.now (option_copied user.entry) }
{
    match user {
        Some(user) => names(list.as_bytes(), user),
        None => false,
    }
}

/// Whether the lists of a container let somebody do this who is no user of the account.
fn lists_let(user: Option<&User>, deed: Deed, bucket: &Bucket) -> bool
    ensures { result ≡ lists_let (option_copied user.entry) deed bucket.now }
{
    match deed {
        Deed::OwnAccount => false,
        Deed::ListContainer => {
            names_asker(&bucket.readers, user) || is_listed(bucket.readers.as_bytes())
        }
        Deed::ReadThing => {
            names_asker(&bucket.readers, user) || is_public(bucket.readers.as_bytes())
        }
        Deed::ChangeThing => names_asker(&bucket.writers, user),
    }
}

/// Whether the lists of a container that the account owns let somebody do this.
fn container_lets(user: Option<&User>, account: &Text, bucket: Option<&Bucket>, deed: Deed) -> bool
    ensures { result ≡ container_lets (option_copied user.entry) deed (found_under account.now (option_copied bucket.entry)) }
{
    match bucket {
        Some(bucket) => bucket.owner == *account && lists_let(user, deed, bucket),
        None => false,
    }
}

/// What is answered where nothing grants it.
fn refusal(user: Option<&User>, deed: Deed) -> Verdict
    ensures { result ≡ refused (option_copied user.entry) deed }
{
    match user {
        Some(_) => Verdict::Denied { rule: deed.rule() },
        None => Verdict::Unknown,
    }
}

/// Judges a request by the policy (the Swift API, container access control lists).
///
/// `user` is the user whose token was sent, or `None` where no token was; a token of nobody is refused
/// before. `account` is the account of the path. `bucket` is the row of the path's container, or `None`
/// where there is none, where the path names none, or where it was not read yet; a row of another
/// account is as none, and the lists of none are empty.
///
/// | Deed | A user of the account | Another user | No token |
/// |---|---|---|---|
/// | `OwnAccount` | granted | denied by `Account` | unknown |
/// | `ListContainer` | granted | where the read list names the user or the user's account, or has `.r:*` and `.rlistings`; else denied by `Read` | where it has `.r:*` and `.rlistings`; else unknown |
/// | `ReadThing` | granted | where the read list names the user or the user's account, or has `.r:*`; else denied by `Read` | where it has `.r:*`; else unknown |
/// | `ChangeThing` | granted | where the write list names the user or the user's account; else denied by `Write` | unknown |
///
/// The members of a list stand between its commas, without the blanks round them.
pub fn judge(user: Option<&User>, account: &Text, bucket: Option<&Bucket>, deed: Deed) -> Verdict
    ensures { result ≡ verdict_of (option_copied user.entry) account.now (option_copied bucket.entry) deed }
{
    if is_of(account, user) || container_lets(user, account, bucket, deed) {
        Verdict::Granted
    } else {
        refusal(user, deed)
    }
}
