// The parts of a target as they were sent, and the words that they stand for.
ghost use Rattle.std.specs.Prelude.{◌≡◌, ℕ, Bool, true, false, not, ◌&&◌, ◌==◌, ◌≤◌, None, IfSome, IfNone, IfOk, IfErr, length, drop};
ghost use Rattle.std.specs.List.{list_all, position_or_len};
ghost use Rattle.std.specs.Cow.{cow_str_bytes};
ghost use Rattle.percent_encoding.specs.Percent.{percent_decode as decoded};
ghost use Rattle.swift_words.specs.Parts.{Tells, has_mark, before_mark, after_mark, begins_with_digits, has_whole_escapes, word_fault, name_fault, is_name};

use crate::WordFault;
use percent_encoding::{DecodeError, percent_decode};
use rgw_types::Text;
use std::alloc::Global;
use std::borrow::CowStr;

/// The most bytes of the name of a container.
pub const CONTAINER_LIMIT: usize = 256;

/// The most bytes of the name of an object.
pub const OBJECT_LIMIT: usize = 1024;

/// Where the first mark is, or the length where there is none.
fn first_mark(bytes: &[u8], mark: u8) -> usize
    ensures { result ≡ position_or_len (λ b. b == mark) bytes.now }
{
    for (at, byte) in bytes.iter().enumerate() {
        if *byte == mark {
            return at;
        }
    }
    bytes.len()
}

/// What stands before and after the first mark, if there is one.
pub fn cut(bytes: &[u8], mark: u8) -> Option<(&[u8], &[u8])>
    ensures some { IfSome result (λ cut. (has_mark mark bytes.now ≡ true)
        × (cut.0.now ≡ before_mark mark bytes.now) × (cut.1.now ≡ after_mark mark bytes.now)) }
    ensures none { IfNone result (has_mark mark bytes.now ≡ false) }
{
    let at = first_mark(bytes, mark);
    if at < bytes.len() {
        Some((&bytes[..at], &bytes[at + 1..]))
    } else {
        None
    }
}

/// What stands before the first mark, and after it: all and nothing where there is none.
pub fn halves(bytes: &[u8], mark: u8) -> (&[u8], &[u8])
    ensures before { result.0.now ≡ before_mark mark bytes.now }
    ensures after { result.1.now ≡ after_mark mark bytes.now }
{
    match cut(bytes, mark) {
        Some(halves) => halves,
        None => (bytes, &[]),
    }
}

/// Whether two hexadecimal digits stand at this place.
fn has_digits_at(bytes: &[u8], at: usize) -> bool
    requires { at ≤ length bytes.now }
    ensures { result ≡ begins_with_digits (drop at bytes.now) }
{
    match &bytes[at..] {
        [high, low, ..] => high.is_ascii_hexdigit() && low.is_ascii_hexdigit(),
        _ => false,
    }
}

/// Whether each `%` has two hexadecimal digits after it.
#[tactic(auto, using(crate::proofs::PartLemmas::escape_steps))]
fn has_whole_escapes(bytes: &[u8]) -> bool
    ensures { result ≡ has_whole_escapes bytes.now }
{
    for (at, byte) in bytes.iter().enumerate() {
        if *byte == b'%' && !has_digits_at(bytes, at + 1) {
            return false;
        }
    }
    true
}

/// The word that a part stands for, which borrows the part where nothing in it is escaped.
pub fn decode<'a>(alloc: Global, part: &'a [u8]) -> Result<CowStr<'a>, WordFault>
    ensures ok { IfOk result (λ word. (word_fault part.now ≡ None) × (cow_str_bytes word ≡ decoded part.now)) }
    ensures err { IfErr result (Tells (word_fault part.now)) }
{
    if !has_whole_escapes(part) {
        return Err(WordFault::BadEscape);
    }
    match percent_decode(part).decode_utf8(alloc) {
        Ok(word) => Ok(word),
        Err(DecodeError::Utf8(_)) => Err(WordFault::BadUtf8),
        Err(DecodeError::OutOfMemory) => Err(WordFault::OutOfMemory),
    }
}

/// The word that a part stands for, as a text. Its escapes are checked first, then its UTF-8.
pub fn read_word(alloc: Global, part: &[u8]) -> Result<Text, WordFault>
    ensures ok { IfOk result (λ word. (word_fault part.now ≡ None) × (word ≡ decoded part.now)) }
    ensures err { IfErr result (Tells (word_fault part.now)) }
{
    let word = decode(alloc, part)?;
    Ok(Text::from_string(word.into_owned(alloc)?))
}

fn has_no_zero(name: &[u8]) -> bool
    ensures { result ≡ list_all (λ b. not (b == 0)) name.now }
{
    name.iter().all(|byte| *byte != 0)
}

/// Whether the name has 1 to `most` bytes, none of which is 0.
#[tactic(auto, unfolding(crate::specs::Parts::is_name))]
pub fn is_name(most: usize, name: &[u8]) -> bool
    ensures { result ≡ is_name most name.now }
{
    !name.is_empty() && name.len() <= most && has_no_zero(name)
}

/// The name that a part stands for, of at most so many bytes. It is checked as a word first.
pub fn read_name(alloc: Global, most: usize, part: &[u8]) -> Result<Text, WordFault>
    ensures ok { IfOk result (λ name. (name_fault most part.now ≡ None) × (name ≡ decoded part.now)) }
    ensures err { IfErr result (Tells (name_fault most part.now)) }
    ensures named { IfOk result (λ name. is_name most name ≡ true) }
{
    let name = read_word(alloc, part)?;
    if is_name(most, name.as_bytes()) {
        Ok(name)
    } else {
        Err(WordFault::BadName)
    }
}
