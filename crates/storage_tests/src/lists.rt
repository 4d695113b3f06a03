// The calls that take memory, at the greatest sizes that a gateway asks of them.
use super::fillers::{letters, repeated};
use rgw_types::{Bytes, Items, Key, Manifest, Pairs, PartNumber, Text};
use std::alloc::{AllocError, Global};
use std::test::Fail;

// More than any call of a gateway moves at once.
const LARGE: usize = 16 << 20;

// These bytes, a byte 1, and these bytes again.
fn around_one(alloc: Global, large: &[u8]) -> Result<Bytes, AllocError> {
    let mut bytes = Bytes::from_slice(alloc, large)?;
    bytes.push(1)?;
    bytes.extend(large)?;
    Ok(bytes)
}

// Whether a copy of the bytes is equal to them, and has them still when it was a vector.
fn are_copied(bytes: &Bytes) -> Result<bool, AllocError> {
    let copy = bytes.clone()?;
    let is_equal = copy == *bytes && !copy.is_empty();
    let again = Bytes::from_vec(copy.into_vec());
    let seen = again.as_slice();
    let is_seen = seen.get(LARGE) == Some(&1) && seen.last() == Some(&7);
    drop(again);
    Ok(is_equal && is_seen)
}

#[test]
fn bytes_of_16_mebibytes(rt: HostRuntime) -> Result<(), Fail> {
    let large = repeated(rt.alloc(), 7, LARGE)?;
    let bytes = around_one(rt.alloc(), &large)?;
    drop(large);
    let len = bytes.len();
    let are_copied = are_copied(&bytes);
    drop(bytes);
    assert_eq!(rt; len, 33_554_433);
    assert!(rt; are_copied?);
    Ok(())
}

// So many items, pushed one by one.
fn numbers(alloc: Global, count: u32) -> Result<Items<u32>, AllocError> {
    let mut items = Items::new(alloc);
    for number in 0..count {
        items.push(number)?;
    }
    Ok(items)
}

#[test]
fn a_million_items_pushed(rt: HostRuntime) -> Result<(), Fail> {
    let items = numbers(rt.alloc(), 1_000_000)?;
    assert_eq!(rt; items.len(), 1_000_000);
    assert_eq!(rt; items.as_slice().last(), Some(&999_999));
    Ok(())
}

// This text, a letter b, and this text again.
fn around_a_letter(alloc: Global, large: &str) -> Result<Text, AllocError> {
    let mut text = Text::from_str(alloc, large)?;
    text.push_str("b")?;
    text.push_str(large)?;
    Ok(text)
}

// Whether a copy of the text is equal to it.
fn is_copied(text: &Text) -> Result<bool, AllocError> {
    let copy = text.clone()?;
    let is_equal = copy == *text && copy.is(text.as_str());
    drop(copy);
    Ok(is_equal)
}

// Whether the text comes back from its bytes, and from a string.
fn is_read_again(alloc: Global, text: &Text) -> Result<bool, Fail> {
    let again = Text::from_utf8(alloc, text.as_str().as_bytes())?;
    let is_seen = again.as_bytes().get(LARGE) == Some(&b'b') && !again.is_empty();
    let back = Text::from_string(again.into_string());
    let is_back = back == *text;
    drop(back);
    Ok(is_seen && is_back)
}

#[test]
fn a_text_of_16_mebibytes(rt: HostRuntime) -> Result<(), Fail> {
    let large = letters(rt.alloc(), LARGE)?;
    let text = around_a_letter(rt.alloc(), &large)?;
    drop(large);
    assert_eq!(rt; text.len(), 33_554_433);
    assert!(rt; is_copied(&text)?);
    assert!(rt; is_read_again(rt.alloc(), &text)?);
    Ok(())
}

// So many pairs of a name of 128 bytes and a value of 256.
fn longest_pairs(alloc: Global, count: u32) -> Result<Vec<(Text, Text)>, Fail> {
    let tail = letters(alloc, 124)?;
    let value = letters(alloc, 256)?;
    let mut pairs = Vec::new(alloc);
    for number in 0..count {
        let name = format!(in alloc; "{number:04}{tail}")?;
        pairs.push((Text::from_string(name), Text::from_str(alloc, &value)?))?;
    }
    Ok(pairs)
}

// The lengths of the last pair, where its value is found under its name.
fn last_lengths(pairs: &Pairs) -> Option<(usize, usize)> {
    let last = pairs.as_slice().last()?;
    let found = pairs.get(last.0.as_str())?;
    if found.len() == last.1.len() {
        Some((last.0.len(), last.1.len()))
    } else {
        None
    }
}

#[test]
fn ninety_pairs_of_the_greatest_lengths(rt: HostRuntime) -> Result<(), Fail> {
    let made = Pairs::from_vec(longest_pairs(rt.alloc(), 90)?);
    let pairs = made.ok().ok_or("names that do not rise")?;
    assert_eq!(rt; pairs.len(), 90);
    assert_eq!(rt; last_lengths(&pairs), Some((128, 256)));
    assert!(rt; pairs.get("0090").is_none());
    assert_eq!(rt; pairs.into_vec().len(), 90);
    Ok(())
}

// Whether a copy of the key is equal to it.
fn is_key_copied(key: &Key) -> Result<bool, AllocError> {
    let copy = key.clone()?;
    let is_equal = copy == *key;
    drop(copy);
    Ok(is_equal)
}

#[test]
fn a_key_with_a_name_of_1024_bytes(rt: HostRuntime) -> Result<(), Fail> {
    let name = Text::from_string(letters(rt.alloc(), 1024)?);
    let container = u64::MAX;
    let key = Key::Head { container, name };
    let is_copied = is_key_copied(&key);
    drop(key);
    assert!(rt; is_copied?);
    Ok(())
}

#[test]
fn the_greatest_number_of_a_part(rt: HostRuntime) {
    assert_eq!(rt; PartNumber::new(335_544_319).get(), 335_544_319);
}

#[test]
fn tails_of_stripes_of_16_bytes(rt: HostRuntime) -> Result<(), Fail> {
    for (size, tails) in [
        (0, 0),
        (16, 0),
        (17, 1),
        (32, 1),
        (33, 2),
        (5_368_709_120, 335_544_319),
    ] {
        let found = Manifest::new(5, 16, size).map(|manifest| manifest.tails());
        assert_eq!(rt; found, Some(tails), "at {size}");
    }
    Ok(())
}

#[test]
fn the_bounds_of_a_manifest(rt: HostRuntime) -> Result<(), Fail> {
    for (stripe, size, taken) in [
        (15, 0, false),
        (16, 0, true),
        (4_194_304, 5_368_709_120, true),
        (4_194_305, 0, false),
        (16, 5_368_709_121, false),
    ] {
        let made = Manifest::new(u64::MAX, stripe, size).is_some();
        assert_eq!(rt; made, taken, "at {stripe} and {size}");
    }
    Ok(())
}
