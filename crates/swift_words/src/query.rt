ghost use Rattle.std.specs.Prelude.{◌≡◌, ◌≤◌, IfOk, OnOk, IfErr, map, option_copied, codes};
ghost use Rattle.std.specs.List.{list_all};
ghost use Rattle.std.specs.Char.{is_ascii_digit};
ghost use Rattle.percent_encoding.specs.Percent.{percent_decode as decoded};
ghost use Rattle.swift_words.specs.Parts.{Tells, word_fault};
ghost use Rattle.swift_words.specs.Queries.{blank_for_plus, pieces_of, piece_fault, pieces_fault, is_limit, limit_fault, limit_in, format_fault, json_in, query_fault, query_of};
ghost use Rattle.swift_words.specs.SentValues.{nothing_sent, put_under, Follows, IsSentBy};

use crate::WordFault;
use crate::part::{decode, halves, read_word};
use rgw_types::Text;
use std::alloc::Global;

/// The most digits of a limit.
const LIMIT_DIGITS: usize = 9;

/// The most rows of a listing.
const MOST_ROWS: u32 = 10000;

/// What the query of a target asks of a listing (the Swift API, listings).
#[derive(Debug, Drop, PartialEq, Eq)]
pub struct Query {
    /// The most rows, at most 10000.
    pub limit: u32,
    /// Only keys greater than this one.
    pub marker: Text,
    /// Only keys less than this one, where it is not empty.
    pub end_marker: Text,
    /// Only names that begin with it.
    pub prefix: Text,
    /// Where it is not empty, names are rolled up to and with its first occurrence after the prefix.
    pub delimiter: Text,
    /// JSON, and not plain text.
    pub json: bool,
}

/// The word that a value stands for, in which a `+` is a blank.
fn read_value(alloc: Global, value: &[u8]) -> Result<Text, WordFault>
    ensures ok { IfOk result (λ word. (word_fault (map blank_for_plus value.now) ≡ None)
        × (word ≡ decoded (map blank_for_plus value.now))) }
    ensures err { IfErr result (Tells (word_fault (map blank_for_plus value.now))) }
{
    if !value.contains(&b'+') {
        return read_word(alloc, value);
    }
    let blanks: Vec<u8> = value
        .iter()
        .map(|byte| blank_for_plus(*byte))
        .collect(alloc)?;
    read_word(alloc, &blanks)
}

fn blank_for_plus(byte: u8) -> u8
    ensures { result ≡ blank_for_plus byte }
{
    if byte == b'+' { b' ' } else { byte }
}

/// The values that a query sends under the known names, the last one of each.
#[derive(Debug, Drop)]
struct Sent {
    limit: Option<Text>,
    marker: Option<Text>,
    end_marker: Option<Text>,
    prefix: Option<Text>,
    delimiter: Option<Text>,
    format: Option<Text>,
}

impl Sent {
    fn nothing() -> Self
        ensures { result ≡ nothing_sent }
    {
        Sent {
            limit: None,
            marker: None,
            end_marker: None,
            prefix: None,
            delimiter: None,
            format: None,
        }
    }

    /// Keeps a value under a known name, in place of one that came before.
    fn put(&mut self, name: &str, value: Text)
        ensures limit { self.new.limit ≡ put_under (codes "limit") name.now value self.old.limit }
        ensures marker { self.new.marker ≡ put_under (codes "marker") name.now value self.old.marker }
        ensures end_marker { self.new.end_marker ≡ put_under (codes "end_marker") name.now value self.old.end_marker }
        ensures prefix { self.new.prefix ≡ put_under (codes "prefix") name.now value self.old.prefix }
        ensures delimiter { self.new.delimiter ≡ put_under (codes "delimiter") name.now value self.old.delimiter }
        ensures format { self.new.format ≡ put_under (codes "format") name.now value self.old.format }
    {
        match name {
            "limit" => self.limit = Some(value),
            "marker" => self.marker = Some(value),
            "end_marker" => self.end_marker = Some(value),
            "prefix" => self.prefix = Some(value),
            "delimiter" => self.delimiter = Some(value),
            "format" => self.format = Some(value),
            _ => {}
        }
    }

    /// Reads a piece of a query: a name, and the value behind its first `=`.
    fn take(&mut self, alloc: Global, piece: &[u8]) -> Result<(), WordFault>
        ensures ok { OnOk result ((piece_fault piece.now ≡ None) × Follows self.old self.new piece.now) }
        ensures err { IfErr result (Tells (piece_fault piece.now)) }
    {
        let (name, value) = halves(piece, b'=');
        let name = decode(alloc, name)?;
        let value = read_value(alloc, value)?;
        self.put(name.as_str(), value);
        Ok(())
    }
}

/// The values that the pieces of a query send.
fn parameters(alloc: Global, query: &[u8]) -> Result<Sent, WordFault>
    ensures ok { IfOk result (λ sent. (pieces_fault (pieces_of query.now) ≡ None) × IsSentBy sent (pieces_of query.now)) }
    ensures err { IfErr result (Tells (pieces_fault (pieces_of query.now))) }
{
    let mut sent = Sent::nothing();
    for piece in query.split(|byte| *byte == b'&') {
        sent.take(alloc, piece)?;
    }
    Ok(sent)
}

fn has_only_digits(value: &[u8]) -> bool
    ensures { result ≡ list_all is_ascii_digit value.now }
{
    value.iter().all(|byte| byte.is_ascii_digit())
}

/// Whether the value is 1 to 9 digits.
#[tactic(auto, unfolding(crate::specs::Queries::is_limit))]
fn is_limit(value: &[u8]) -> bool
    ensures { result ≡ is_limit value.now }
{
    !value.is_empty() && value.len() <= LIMIT_DIGITS && has_only_digits(value)
}

/// The limit that was sent, at most 10000, which it also is where none was.
fn limit_in(sent: Option<&Text>) -> Result<u32, WordFault>
    ensures ok { IfOk result (λ limit. (limit_fault (option_copied sent.entry) ≡ None) × (limit ≡ limit_in (option_copied sent.entry))) }
    ensures err { IfErr result (λ fault. limit_fault (option_copied sent.entry) ≡ Some fault) }
    ensures most { IfOk result (λ limit. limit ≤ 10000) }
{
    let Some(value) = sent else {
        return Ok(MOST_ROWS);
    };
    if !is_limit(value.as_bytes()) {
        return Err(WordFault::BadLimit);
    }
    match value.as_str().parse::<u32>() {
        Ok(limit) => Ok(limit.min(MOST_ROWS)),
        Err(_) => Err(WordFault::BadLimit),
    }
}

/// Whether the format that was sent is JSON; where none was, it is plain.
fn json_in(sent: Option<&Text>) -> Result<bool, WordFault>
    ensures ok { IfOk result (λ json. (format_fault (option_copied sent.entry) ≡ None) × (json ≡ json_in (option_copied sent.entry))) }
    ensures err { IfErr result (λ fault. format_fault (option_copied sent.entry) ≡ Some fault) }
{
    match sent {
        None => Ok(false),
        Some(value) if value.is("json") => Ok(true),
        Some(value) if value.is("plain") => Ok(false),
        Some(_) => Err(WordFault::BadFormat),
    }
}

/// Reads the query of a target.
#[tactic(auto, unfolding(crate::specs::Queries::query_fault, crate::specs::Queries::query_of))]
pub fn read_query(alloc: Global, query: &[u8]) -> Result<Query, WordFault>
    ensures ok { IfOk result (λ read. (query_fault query.now ≡ None) × (read ≡ query_of query.now)) }
    ensures err { IfErr result (Tells (query_fault query.now)) }
    ensures limit { IfOk result (λ read. read.limit ≤ 10000) }
{
    let sent = parameters(alloc, query)?;
    let limit = limit_in(sent.limit.as_ref())?;
    let json = json_in(sent.format.as_ref())?;
    Ok(Query {
        limit,
        marker: sent.marker.unwrap_or(Text::new(alloc)),
        end_marker: sent.end_marker.unwrap_or(Text::new(alloc)),
        prefix: sent.prefix.unwrap_or(Text::new(alloc)),
        delimiter: sent.delimiter.unwrap_or(Text::new(alloc)),
        json,
    })
}
