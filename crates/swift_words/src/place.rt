ghost use Rattle.std.specs.Prelude.{◌≡◌, true, None, IfOk, IfErr};
ghost use Rattle.swift_words.specs.Parts.{Tells, is_name, container_limit, object_limit};
ghost use Rattle.swift_words.specs.Places.{without_slash, place_fault, place_of};

use crate::WordFault;
use crate::part::{CONTAINER_LIMIT, OBJECT_LIMIT, cut, read_name};
use rgw_types::Text;
use std::alloc::Global;

/// The value without the one slash that may stand in front.
fn without_slash(value: &[u8]) -> &[u8]
    ensures { result.now ≡ without_slash value.now }
{
    match value {
        [b'/', rest @ ..] => rest,
        _ => value,
    }
}

/// Reads the container and the object of a Destination or X-Copy-From field (the Swift API, copying
/// objects). One slash may stand in front. The container ends at the next slash, and the object is
/// all the rest, also a `?`. Then each of the two is decoded (RFC 3986, section 2.1).
///
/// The fault is the first of these, and only want of memory may come at any place: `NotPath` where
/// no slash ends the container; for the container and then for the object, `BadEscape` for a `%`
/// without two hexadecimal digits, `BadUtf8` for a word that is not UTF-8, and `BadName` for a name
/// that is not 1 to 256 bytes (container) or 1 to 1024 bytes (object) without a byte 0.
#[tactic(auto, unfolding(crate::specs::Places::place_fault, crate::specs::Places::place_of))]
pub fn read_place(alloc: Global, value: &[u8]) -> Result<(Text, Text), WordFault>
    ensures ok { IfOk result (λ place. (place_fault value.now ≡ None) × (place ≡ place_of value.now)) }
    ensures err { IfErr result (Tells (place_fault value.now)) }
    ensures names { IfOk result (λ place.
        (is_name container_limit place.0 ≡ true) × (is_name object_limit place.1 ≡ true)) }
{
    let Some((container, object)) = cut(without_slash(value), b'/') else {
        return Err(WordFault::NotPath);
    };
    let container = read_name(alloc, CONTAINER_LIMIT, container)?;
    let object = read_name(alloc, OBJECT_LIMIT, object)?;
    Ok((container, object))
}
