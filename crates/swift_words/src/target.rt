ghost use Rattle.std.specs.Prelude.{◌≡◌, ◌≤◌, true, None, IfOk, IfErr};
ghost use Rattle.swift_words.specs.Parts.{Tells};
ghost use Rattle.swift_words.specs.Targets.{target_fault, target_of, asked_by, has_names};

use crate::part::halves;
use crate::path::read_path;
use crate::query::read_query;
use crate::{Query, WordFault};
use rgw_types::Text;
use std::alloc::Global;

/// What a target names (the Swift API).
#[derive(Debug, Drop, PartialEq, Eq)]
pub enum Target {
    /// Where tokens are asked for.
    Auth,
    /// An account.
    Account(Text),
    /// An account and a container.
    Container(Text, Text),
    /// An account, a container and an object.
    Thing(Text, Text, Text),
    /// No path of the API.
    Unknown,
}

/// Reads the target of a request (RFC 9112, section 3.2.1; the Swift API).
///
/// A target begins with a slash, and its path ends at the first `?`. The path is split at its first
/// four slashes, and then each part is decoded (RFC 3986, section 2.1), so an escaped slash never
/// splits. `/auth`, `/auth/1.0` and `/auth/v1.0` are `Auth`; `/swift/v1/AUTH_{account}` is an
/// account, with `/{container}` a container, and with `/{container}/{object}` an object, which is
/// all the rest. One slash at the end of an auth, account or container path is dropped. All other
/// paths are `Unknown`.
///
/// The query is the pieces between its `&`. Of a piece the name stands before the first `=`, and
/// the value behind it, in which a `+` is a blank. Of a repeated name the last value counts, and
/// unknown names are dropped. Where `limit` is not sent it is 10000, and a greater one is taken as
/// 10000; where `format` is not sent it is plain; all else that is not sent is empty.
///
/// The fault is the first of these, and only want of memory may come at any place: `NotPath` where
/// no slash stands in front; for each part of the path, also of an unknown one, `BadEscape` for a `%`
/// without two hexadecimal digits, `BadUtf8` for a word that is not UTF-8, and, below an account,
/// `BadName` for a name that is not 1 to 256 bytes (container) or 1 to 1024 bytes (object) without a
/// byte 0; for each name and value of the query, also of unknown ones, `BadEscape` and `BadUtf8`;
/// `BadLimit` for a `limit` that is not 1 to 9 digits; `BadFormat` for a `format` other than `json`
/// and `plain`.
#[tactic(auto, unfolding(crate::specs::Targets::target_fault, crate::specs::Targets::target_of, crate::specs::Targets::asked_by))]
pub fn read_target(alloc: Global, target: &[u8]) -> Result<(Target, Query), WordFault>
    ensures ok { IfOk result (λ read. (target_fault target.now ≡ None)
        × (read.0 ≡ target_of target.now) × (read.1 ≡ asked_by target.now)) }
    ensures err { IfErr result (Tells (target_fault target.now)) }
    ensures names { IfOk result (λ read. has_names read.0 ≡ true) }
    ensures limit { IfOk result (λ read. read.1.limit ≤ 10000) }
{
    let [b'/', rest @ ..] = target else {
        return Err(WordFault::NotPath);
    };
    let (path, query) = halves(rest, b'?');
    let named = read_path(alloc, path)?;
    let asked = read_query(alloc, query)?;
    Ok((named, asked))
}
