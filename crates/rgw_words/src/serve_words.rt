//! The words that ask for a server.
ghost use Rattle.std.specs.Prelude.{◌≡◌, true, None, Some, IfOk, IsErrOf, MatchOption, map, string_bytes};
ghost use Rattle.realm_model.specs.Settings.{IsSettings};
ghost use Rattle.rgw_words.specs.Words.{accepts_in, serve_of, may_ask_serve, serving_in, serving_with};

use crate::fault::WordsFault;
use crate::options::{number_in, value_of};
use crate::run_words::{RunWords, read_behind};
use std::alloc::Global;

/// Where a server listens, and what it does with the connections.
#[derive(Clone, Copy, Debug, PartialEq, Eq)]
pub struct Serving {
    pub port: u16,
    /// How many connections are served at once.
    pub workers: u32,
    /// How many connections are taken in all; none is no end.
    pub accepts: Option<u64>,
}

/// What the words `serve [OPTIONS]` ask, to serve the connections of a port to a new realm.
#[derive(Drop)]
pub struct ServeWords {
    /// The realm, its first container, its moment and its users, as for `once`.
    pub run: RunWords,
    pub serving: Serving,
}

/// Reads the words behind the program's name, where they ask for a server: the options of `once`, and
/// `--port`, `--workers` and `--accepts`.
///
/// Where memory is wanting, the users text may be none.
pub fn read_serve(alloc: Global, words: &[String]) -> Result<ServeWords, WordsFault>
    ensures ok { IfOk result (λ serve. serve_of (map string_bytes words.now) ≡ Some serve) }
    ensures bounds { IfOk result (λ serve. IsSettings serve.run.settings) }
    ensures refused { IsErrOf result WordsFault.Refused
        → serve_of (map string_bytes words.now) ≡ None }
    ensures out_of_memory { IsErrOf result WordsFault.OutOfMemory
        → may_ask_serve (map string_bytes words.now) ≡ true }
{
    let Some(serving) = serving_in(words) else {
        return Err(WordsFault::Refused);
    };
    match read_behind(alloc, "serve", true, words) {
        Ok(run) => Ok(ServeWords { run, serving }),
        Err(WordsFault::Refused) => Err(WordsFault::Refused),
        Err(WordsFault::OutOfMemory) => Err(WordsFault::OutOfMemory),
    }
}

/// What the options behind the command say of the connections.
fn serving_in(words: &[String]) -> Option<Serving>
    ensures { result ≡ serving_in (map string_bytes words.now) }
{
    match words {
        [] => None,
        [_, options @ ..] => serving_with(options),
    }
}

fn serving_with(options: &[String]) -> Option<Serving>
    ensures { result ≡ serving_with (map string_bytes options.now) }
{
    let port = number_in(1, 65_528, 8080, value_of("--port", options))?;
    let workers = number_in(1, 64, 8, value_of("--workers", options))?;
    let accepts = accepts_in(value_of("--accepts", options))?;
    Some(Serving {
        port: port as u16,
        workers: workers as u32,
        accepts,
    })
}

/// How many connections are taken, if that is said.
fn accepts_in(word: Option<&str>) -> Option<Option<u64>>
    ensures { MatchOption word.entry (result ≡ accepts_in None) (λ word. result ≡ accepts_in (Some word.now)) }
{
    if word.is_none() {
        return Some(None);
    }
    let accepts = number_in(1, 1_000_000, 1, word)?;
    Some(Some(accepts))
}
