// What an actor does, by its words.
ghost use Rattle.std.specs.Prelude.{◌≡◌, map};
ghost use Rattle.std.specs.List.{position};
ghost use Rattle.script_words.specs.Lines.{is_slash};
ghost use Rattle.script_words.specs.Reading.{Reads, path_in, times_in, body_in, put_in, get_in, only_container, account_in, container_verb, verb_in};

use crate::no_line::NoLine;
use crate::words::{container_in, is, name_in, number_in};
use crate::{ScriptBody, Verb};
use object_words::{BucketName, ObjectName};
use rgw_types::Bytes;
use std::alloc::Global;
use task_words::Job;

/// The most letters that `*N` may ask for.
const MOST_LETTERS: u64 = 5_368_709_120;

/// A container and an object in it.
pub(crate) struct Path {
    pub container: BucketName,
    pub name: ObjectName,
}

/// Where the first slash stands.
fn slash_at(word: &[u8]) -> Option<usize>
    ensures { result ≡ position is_slash word.now }
{
    word.iter().position(|byte| *byte == b'/')
}

/// The container and the object that stand before and behind the first slash.
fn path_in(alloc: Global, word: &[u8]) -> Result<Path, NoLine>
    ensures { Reads result (path_in word.now) }
{
    let Some(at) = slash_at(word) else {
        return Err(NoLine::Bad);
    };
    Ok(Path {
        container: container_in(alloc, &word[..at])?,
        name: name_in(alloc, &word[at + 1..])?,
    })
}

/// So many letters as the digits behind a `*` say.
fn times_in(digits: &[u8]) -> Result<ScriptBody, NoLine>
    ensures { Reads result (times_in digits.now) }
{
    match number_in(digits) {
        Some(count) if count <= MOST_LETTERS => Ok(ScriptBody::Times(count)),
        _ => Err(NoLine::Bad),
    }
}

/// The body of an object that the word is.
fn body_in(alloc: Global, word: &[u8]) -> Result<ScriptBody, NoLine>
    ensures { Reads result (body_in word.now) }
{
    match word {
        [] => Err(NoLine::Bad),
        [b'*', digits @ ..] => times_in(digits),
        [b'-'] => Ok(ScriptBody::Word(Bytes::new(alloc))),
        _ => Ok(ScriptBody::Word(Bytes::from_slice(alloc, word)?)),
    }
}

fn put_in(alloc: Global, words: &[&[u8]]) -> Result<Verb, NoLine>
    ensures { Reads result (put_in (map (λ word. word.now) words.now)) }
{
    let [path, body] = words else {
        return Err(NoLine::Bad);
    };
    let Path { container, name } = path_in(alloc, path)?;
    Ok(Verb::Put {
        container,
        name,
        body: body_in(alloc, body)?,
    })
}

fn get_in(alloc: Global, words: &[&[u8]]) -> Result<Verb, NoLine>
    ensures { Reads result (get_in (map (λ word. word.now) words.now)) }
{
    let [path] = words else {
        return Err(NoLine::Bad);
    };
    let Path { container, name } = path_in(alloc, path)?;
    Ok(Verb::Get { container, name })
}

/// The one word that names a container.
fn only_container(alloc: Global, words: &[&[u8]]) -> Result<BucketName, NoLine>
    ensures { Reads result (only_container (map (λ word. word.now) words.now)) }
{
    let [container] = words else {
        return Err(NoLine::Bad);
    };
    container_in(alloc, container)
}

/// The verb for the whole account, behind which no word stands.
fn account_in(words: &[&[u8]]) -> Result<Verb, NoLine>
    ensures { Reads result (account_in (map (λ word. word.now) words.now)) }
{
    match words {
        [] => Ok(Verb::Account),
        _ => Err(NoLine::Bad),
    }
}

/// What is done with a container, by the verb's word.
fn container_verb(verb: &[u8], container: BucketName) -> Result<Verb, NoLine>
    ensures { Reads result (container_verb verb.now container) }
{
    if is(verb, "stat") {
        Ok(Verb::Stat { container })
    } else if is(verb, "list") {
        Ok(Verb::List { container })
    } else if is(verb, "mk") {
        Ok(Verb::Make { container })
    } else if is(verb, "rm") {
        Ok(Verb::Remove { container })
    } else if is(verb, "check") {
        Ok(Verb::Job(Job::Check { container }))
    } else {
        drop(container);
        Err(NoLine::Bad)
    }
}

/// The verb with its arguments that the words are.
pub(crate) fn verb_in(alloc: Global, words: &[&[u8]]) -> Result<Verb, NoLine>
    ensures { Reads result (verb_in (map (λ word. word.now) words.now)) }
{
    let [verb, arguments @ ..] = words else {
        return Err(NoLine::Bad);
    };
    if is(verb, "put") {
        put_in(alloc, arguments)
    } else if is(verb, "get") {
        get_in(alloc, arguments)
    } else if is(verb, "account") {
        account_in(arguments)
    } else {
        container_verb(verb, only_container(alloc, arguments)?)
    }
}
