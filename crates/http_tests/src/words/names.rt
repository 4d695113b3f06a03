use super::*;
use crate::repeating::{between, repeated};

/// How many bytes the last name of a target has.
fn last_len(target: &Target) -> usize {
    match target {
        Target::Auth | Target::Unknown => 0,
        Target::Account(name) | Target::Container(_, name) | Target::Thing(_, _, name) => {
            name.len()
        }
    }
}

/// How many bytes the last name of a target has that ends in so many of a text, or why it is none.
fn len_of_last(
    alloc: Global,
    front: &[u8],
    text: &[u8],
    count: usize,
) -> Result<Result<usize, WordFault>, AllocError> {
    let target = repeated(alloc, front, text, count)?;
    match read_target(alloc, &target) {
        Ok((named, asked)) => {
            let len = last_len(&named);
            drop(named);
            drop(asked);
            Ok(Ok(len))
        }
        Err(fault) => Ok(Err(fault)),
    }
}

const FRONTS: &[(&[u8], usize)] = &[
    (b"/swift/v1/AUTH_acme/", 256),
    (b"/swift/v1/AUTH_acme/box/", 1024),
];

#[test]
fn names_have_their_limits(rt: HostRuntime) -> Result<(), Fail> {
    let alloc = rt.alloc();
    for (front, most) in FRONTS {
        assert_eq!(rt; len_of_last(alloc, front, b"a", *most)?, Ok(*most));
        assert_eq!(rt; len_of_last(alloc, front, b"%2F", *most)?, Ok(*most));
        assert_eq!(rt;
            len_of_last(alloc, front, b"a", *most + 1)?,
            Err(WordFault::BadName)
        );
        assert_eq!(rt;
            len_of_last(alloc, front, b"%2F", *most + 1)?,
            Err(WordFault::BadName)
        );
    }
    Ok(())
}

/// How many bytes the names have of a place that is so many letters between these texts, or why it is none.
fn lengths_in(
    alloc: Global,
    front: &[u8],
    count: usize,
    end: &[u8],
) -> Result<Result<(usize, usize), WordFault>, AllocError> {
    let place = between(alloc, front, b"a", count, end)?;
    match read_place(alloc, &place) {
        Ok((container, object)) => Ok(Ok((container.len(), object.len()))),
        Err(fault) => Ok(Err(fault)),
    }
}

#[test]
fn places_have_the_same_limits(rt: HostRuntime) -> Result<(), Fail> {
    let alloc = rt.alloc();
    assert_eq!(rt; lengths_in(alloc, b"box/", 1024, b"")?, Ok((3, 1024)));
    assert_eq!(rt;
        lengths_in(alloc, b"box/", 1025, b"")?,
        Err(WordFault::BadName)
    );
    assert_eq!(rt; lengths_in(alloc, b"/", 256, b"/k")?, Ok((256, 1)));
    assert_eq!(rt;
        lengths_in(alloc, b"/", 257, b"/k")?,
        Err(WordFault::BadName)
    );
    Ok(())
}

#[test]
fn a_name_counts_bytes_and_not_characters(rt: HostRuntime) -> Result<(), Fail> {
    let alloc = rt.alloc();
    let front = b"/swift/v1/AUTH_acme/";
    let longest = repeated(alloc, front, b"%C3%A4", 128)?;
    assert!(rt; read_target(alloc, &longest).is_ok());
    let longer = repeated(alloc, front, b"%C3%A4", 129)?;
    assert_eq!(rt; read_target(alloc, &longer).err(), Some(WordFault::BadName));
    Ok(())
}

#[test]
fn a_target_may_have_many_pieces(rt: HostRuntime) -> Result<(), Fail> {
    let alloc = rt.alloc();
    let target = repeated(alloc, b"/auth?", b"prefix=%41+&", 5000)?;
    let (named, asked) = read_target(alloc, &target)?;
    assert!(rt; named == Target::Auth);
    assert!(rt; asked.prefix.is("A "));
    Ok(())
}

/// How many bytes the names of a place have.
fn lengths_of(alloc: Global, place: &[u8]) -> Result<(usize, usize), Fail> {
    let (container, object) = read_place(alloc, place)?;
    let lengths = (container.len(), object.len());
    drop(container);
    drop(object);
    Ok(lengths)
}

/// How many bytes the last name of a target has, and its marker.
fn last_and_marker(alloc: Global, target: &[u8]) -> Result<(usize, usize), Fail> {
    let (named, asked) = read_target(alloc, target)?;
    let lengths = (last_len(&named), asked.marker.len());
    drop(named);
    drop(asked);
    Ok(lengths)
}

/// The longest names, with nothing in them but escapes.
fn longest_place(alloc: Global) -> Result<Vec<u8>, AllocError> {
    let mut container = repeated(alloc, b"/", b"%2F", 256)?;
    container.push(b'/')?;
    repeated(alloc, &container, b"%2F", 1024)
}

/// A target with them, and with a long marker.
fn longest_target(alloc: Global) -> Result<Vec<u8>, AllocError> {
    let mut target = Vec::from_slice(alloc, b"/swift/v1/AUTH_acme")?;
    target.extend_from_slice(&longest_place(alloc)?)?;
    target.extend_from_slice(b"?marker=+")?;
    repeated(alloc, &target, b"%2B", 20_000)
}

#[test]
fn the_longest_names_come_together(rt: HostRuntime) -> Result<(), Fail> {
    let alloc = rt.alloc();
    let lengths = lengths_of(alloc, &longest_place(alloc)?)?;
    assert_eq!(rt; lengths, (256, 1024));
    let lengths = last_and_marker(alloc, &longest_target(alloc)?)?;
    assert_eq!(rt; lengths, (1024, 20_001));
    Ok(())
}
