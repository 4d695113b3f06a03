//! Options behind a command, in any order: each a name and a value, in two words or in one.
ghost use Rattle.std.specs.Prelude.{◌≡◌, ◌<◌, true, false, None, Some, IfSome, MatchOption, length, map, string_bytes};
ghost use Rattle.rgw_words.specs.Options.{is_joined, name_in, value_in, said_in_two, first_option, value_of, is_usual_option, is_server_option, is_option, begins_option, are_options, number_in};

use crate::values::{all_digits, begins_with_dash};

/// An option, and the words behind it.
#[derive(Clone, Copy)]
struct Said<'a> {
    name: &'a str,
    value: &'a str,
    rest: &'a [String],
}

/// The name and the value in a word `name=value`, which its first `=` divides.
fn divide(word: &str) -> Option<(&str, &str)>
    ensures { MatchOption result (is_joined word.now ≡ false)
        (λ parts. (is_joined word.now ≡ true) × (parts.0.now ≡ name_in word.now) × (parts.1.now ≡ value_in word.now)) }
{
    word.split_once('=')
}

/// The option that the words begin with, in one word or in two.
fn first_option(words: &[String]) -> Option<Said<'_>>
    ensures first { MatchOption result (first_option (map string_bytes words.now) ≡ None)
        (λ said. first_option (map string_bytes words.now)
        ≡ Some (record { name = said.name.now; value = said.value.now; rest = map string_bytes said.rest.now })) }
    ensures shorter { IfSome result (λ said. length said.rest.now < length words.now) }
{
    match words {
        [] => None,
        [word, rest @ ..] => match divide(word.as_str()) {
            Some((name, value)) => Some(Said { name, value, rest }),
            None => said_in_two(word.as_str(), rest),
        },
    }
}

/// The option of this name whose value stands first among the words.
fn said_in_two<'a>(name: &'a str, words: &'a [String]) -> Option<Said<'a>>
    ensures first { MatchOption result (said_in_two name.now (map string_bytes words.now) ≡ None)
        (λ said. said_in_two name.now (map string_bytes words.now)
        ≡ Some (record { name = said.name.now; value = said.value.now; rest = map string_bytes said.rest.now })) }
    ensures shorter { IfSome result (λ said. length said.rest.now < length words.now) }
{
    match words {
        [] => None,
        [value, rest @ ..] => Some(Said {
            name,
            value: value.as_str(),
            rest,
        }),
    }
}

/// The value of the first option of this name.
pub(crate) fn value_of<'a>(name: &str, words: &'a [String]) -> Option<&'a str>
    ensures { MatchOption result (value_of name.now (map string_bytes words.now) ≡ None)
        (λ value. value_of name.now (map string_bytes words.now) ≡ Some value.now) }
{
    match first_option(words) {
        None => None,
        Some(said) => {
            if said.name == name {
                Some(said.value)
            } else {
                value_of(name, said.rest)
            }
        }
    }
}

/// Whether the words are options alone, those of a server among them or not, each there once, and no value
/// beginning with a dash.
pub(crate) fn are_options(serving: bool, words: &[String]) -> bool
    ensures { result ≡ are_options serving (map string_bytes words.now) }
{
    if words.is_empty() {
        return true;
    }
    match first_option(words) {
        None => false,
        Some(said) => {
            if begins_option(serving, said.name, said.value, said.rest) {
                are_options(serving, said.rest)
            } else {
                false
            }
        }
    }
}

fn begins_option(serving: bool, name: &str, value: &str, words: &[String]) -> bool
    ensures { result ≡ begins_option serving name.now value.now (map string_bytes words.now) }
{
    is_option(serving, name) && !begins_with_dash(value) && value_of(name, words).is_none()
}

fn is_option(serving: bool, word: &str) -> bool
    ensures { result ≡ is_option serving word.now }
{
    is_usual_option(word) || serving && is_server_option(word)
}

fn is_server_option(word: &str) -> bool
    ensures { result ≡ is_server_option word.now }
{
    word == "--port" || word == "--workers" || word == "--accepts"
}

fn is_usual_option(word: &str) -> bool
    ensures { result ≡ is_usual_option word.now }
{
    word == "--bucket"
        || word == "--stripe"
        || word == "--frame"
        || word == "--frames"
        || word == "--shards"
        || word == "--tag-seconds"
        || word == "--largest"
        || word == "--now"
        || word == "--users"
}

/// The number that a value says, from the least to the greatest; the usual one where there is no value.
pub(crate) fn number_in(least: u64, greatest: u64, usual: u64, word: Option<&str>) -> Option<u64>
    ensures { MatchOption word.entry (result ≡ number_in least greatest usual None)
        (λ word. result ≡ number_in least greatest usual (Some word.now)) }
{
    match word {
        None => Some(usual),
        Some(word) => number_of(least, greatest, word),
    }
}

fn number_of(least: u64, greatest: u64, word: &str) -> Option<u64>
    ensures { result ≡ number_in least greatest 0 (Some word.now) }
{
    // `parse` would take a plus sign in front.
    if !all_digits(word.as_bytes()) {
        return None;
    }
    let Ok(number) = word.parse::<u64>() else {
        return None;
    };
    if least <= number && number <= greatest {
        Some(number)
    } else {
        None
    }
}
