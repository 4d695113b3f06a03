//! Keys of names, and texts below them.
use list_words::{Key, ListCommand};
use object_words::{BucketName, ObjectName};
use rgw_types::Text;
use std::alloc::Global;
use std::test::Fail;

fn command(
    alloc: Global,
    marker: &str,
    end_marker: &str,
    prefix: &str,
    delimiter: &str,
) -> Result<ListCommand, Fail> {
    let container = BucketName::new(Text::from_str(alloc, "box")?);
    Ok(ListCommand {
        container: container.ok().ok_or("no name")?,
        limit: 10001,
        marker: Text::from_str(alloc, marker)?,
        end_marker: Text::from_str(alloc, end_marker)?,
        prefix: Text::from_str(alloc, prefix)?,
        delimiter: Text::from_str(alloc, delimiter)?,
    })
}

fn name(alloc: Global, text: &str) -> Result<ObjectName, Fail> {
    let name = ObjectName::new(Text::from_str(alloc, text)?);
    Ok(name.ok().ok_or("no name")?)
}

// Without an end marker.
fn key_is(
    alloc: Global,
    (marker, prefix, delimiter): (&str, &str, &str),
    text: &str,
    key: Option<Key>,
) -> Result<bool, Fail> {
    let name = name(alloc, text)?;
    let command = command(alloc, marker, "", prefix, delimiter)?;
    let right = command.key(&name) == key;
    drop(command);
    Ok(right)
}

// Below `a/`, up to `a/c`: whether the name is past that, and how many rows there are at most.
fn is_past(alloc: Global, text: &str) -> Result<(bool, usize), Fail> {
    let name = name(alloc, text)?;
    let command = command(alloc, "", "a/c", "a/", "/")?;
    let past = command.is_past(&name);
    let most = command.most_rows();
    drop(command);
    Ok((past, most))
}

fn starts_at(alloc: Global, marker: &str, prefix: &str, start: &str) -> Result<bool, Fail> {
    let command = command(alloc, marker, "", prefix, "/")?;
    let found = command.start(alloc);
    drop(command);
    Ok(found?.is(start))
}

/// A marker, a prefix and a delimiter, a name, and its key.
type Keyed<'a> = (&'a str, &'a str, &'a str, &'a str, Option<Key<'a>>);

const KEYED: &[Keyed<'_>] = &[
    ("", "", "", "a/b/c", Some(Key::Whole)),
    ("", "", "/", "a/b/c", Some(Key::Subdir("a/"))),
    ("", "", "/", "a", Some(Key::Whole)),
    ("a/", "", "/", "a/b/c", None),
    ("a/b", "a/", "/", "a/b/c", Some(Key::Subdir("a/b/"))),
    ("", "b", "/", "a/b/c", None),
    ("", "ä", "ö/", "äxö/y", Some(Key::Subdir("äxö/"))),
];

#[test]
fn keys_of_names(rt: HostRuntime) -> Result<(), Fail> {
    for (marker, prefix, delimiter, text, key) in KEYED {
        let right = key_is(rt.alloc(), (marker, prefix, delimiter), text, *key)?;
        assert!(rt; right, "at {text} behind {marker} and {prefix}");
    }
    Ok(())
}

#[test]
fn names_past_the_scope(rt: HostRuntime) -> Result<(), Fail> {
    for (text, past) in [("a", false), ("a/b", false), ("a/c", true), ("b", true)] {
        let (found, most) = is_past(rt.alloc(), text)?;
        assert_eq!(rt; found, past, "at {text}");
        assert_eq!(rt; most, 10000);
    }
    Ok(())
}

#[test]
fn starts_of_listings(rt: HostRuntime) -> Result<(), Fail> {
    let alloc = rt.alloc();
    for (marker, prefix, start) in [
        ("", "", ""),
        ("m", "", "m"),
        ("", "a/", "a.\u{10FFFF}"),
        ("a/x", "a/", "a/x"),
        ("a", "b", "a\u{10FFFF}"),
        ("c", "b", "c"),
        ("", "a\u{E000}", "a"),
    ] {
        let right = starts_at(alloc, marker, prefix, start)?;
        assert!(rt; right, "at {marker} and {prefix}");
    }
    Ok(())
}
