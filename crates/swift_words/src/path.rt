ghost use Rattle.std.specs.Prelude.{◌≡◌, ◌++◌, true, [], None, IfOk, IfErr, map, option_copied};
ghost use Rattle.percent_encoding.specs.Percent.{percent_decode as decoded};
ghost use Rattle.swift_words.specs.Parts.{Tells};
ghost use Rattle.swift_words.specs.Targets.{last_part, parts_within, account_of, is_auth, named_by, has_names, limit_after, part_fault, parts_fault};

use crate::part::{CONTAINER_LIMIT, OBJECT_LIMIT, cut, read_name, read_word};
use crate::{Target, WordFault};
use rgw_types::Text;
use std::alloc::{AllocError, Global};

/// How many slashes end a part: those of the API, the version, the account and the container.
const SLASHES: usize = 4;

/// The parts with the last one, if it is not empty.
fn with_last<'a>(mut parts: Vec<&'a [u8]>, last: &'a [u8]) -> Result<Vec<&'a [u8]>, AllocError>
    ensures { IfOk result (λ all. map (λ part. part.now) all.items
        ≡ map (λ part. part.now) parts.entry.items ++ last_part last.now) }
{
    if !last.is_empty() {
        parts.push(last)?;
    }
    Ok(parts)
}

/// The parts of a path between its slashes, the last one with all the rest.
fn parts_of<'a>(alloc: Global, path: &'a [u8]) -> Result<Vec<&'a [u8]>, AllocError>
    ensures { IfOk result (λ parts. map (λ part. part.now) parts.items ≡ parts_within 4 path.now) }
{
    let mut parts = Vec::with_capacity(alloc, SLASHES + 1)?;
    let mut rest = path;
    while parts.len() < SLASHES {
        let Some((part, after)) = cut(rest, b'/') else {
            return with_last(parts, rest);
        };
        parts.push(part)?;
        rest = after;
    }
    with_last(parts, rest)
}

/// The account, where the words begin with `swift`, `v1` and `AUTH_` with the account.
fn account_of(words: &[Text]) -> Option<&str>
    ensures { option_copied result ≡ account_of words.now }
{
    let [api, version, account, ..] = words else {
        return None;
    };
    if api.is("swift") && version.is("v1") {
        account.as_str().strip_prefix("AUTH_")
    } else {
        None
    }
}

/// Whether the words are `auth`, alone or with `1.0` or `v1.0`.
fn is_auth(words: &[Text]) -> bool
    ensures { result ≡ is_auth words.now }
{
    match words {
        [path] => path.is("auth"),
        [path, version] => path.is("auth") && (version.is("1.0") || version.is("v1.0")),
        _ => false,
    }
}

/// The most bytes of the part after these words, where a name stands there.
fn limit_after(words: &[Text]) -> Option<usize>
    ensures { result ≡ limit_after words.now }
{
    account_of(words)?;
    if words.len() == 3 {
        Some(CONTAINER_LIMIT)
    } else {
        Some(OBJECT_LIMIT)
    }
}

/// The word of a part, which may be a name of so many bytes.
fn read_part(alloc: Global, limit: Option<usize>, part: &[u8]) -> Result<Text, WordFault>
    ensures ok { IfOk result (λ word. (part_fault limit part.now ≡ None) × (word ≡ decoded part.now)) }
    ensures err { IfErr result (Tells (part_fault limit part.now)) }
{
    match limit {
        Some(most) => read_name(alloc, most, part),
        None => read_word(alloc, part),
    }
}

/// The words of the parts.
fn words_of(alloc: Global, parts: &[&[u8]]) -> Result<Vec<Text>, WordFault>
    ensures ok { IfOk result (λ words. let sent = map (λ part. part.now) parts.now in
        (parts_fault [] sent ≡ None) × (words.items ≡ map decoded sent)) }
    ensures err { IfErr result (Tells (parts_fault [] (map (λ part. part.now) parts.now))) }
{
    let mut words = Vec::with_capacity(alloc, parts.len())?;
    for part in parts {
        let word = read_part(alloc, limit_after(&words), part)?;
        words.push(word)?;
    }
    Ok(words)
}

/// What the words of a path name.
fn named_by(alloc: Global, mut words: Vec<Text>) -> Result<Target, AllocError>
    ensures { IfOk result (λ target. target ≡ named_by words.items) }
{
    let Some(account) = account_of(&words) else {
        return Ok(if is_auth(&words) {
            Target::Auth
        } else {
            Target::Unknown
        });
    };
    let account = Text::from_str(alloc, account)?;
    match words.len() {
        3 => Ok(Target::Account(account)),
        4 => Ok(Target::Container(account, words.remove(3))),
        _ => {
            let object = words.remove(4);
            Ok(Target::Thing(account, words.remove(3), object))
        }
    }
}

/// What a path names, which begins behind the first slash of a target.
pub fn read_path(alloc: Global, path: &[u8]) -> Result<Target, WordFault>
    ensures ok { IfOk result (λ target. (parts_fault [] (parts_within 4 path.now) ≡ None)
        × (target ≡ named_by (map decoded (parts_within 4 path.now)))) }
    ensures err { IfErr result (Tells (parts_fault [] (parts_within 4 path.now))) }
    ensures names { IfOk result (λ target. has_names target ≡ true) }
{
    let parts = parts_of(alloc, path)?;
    let words = words_of(alloc, &parts)?;
    Ok(named_by(alloc, words)?)
}
