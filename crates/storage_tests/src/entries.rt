use index_entry::{
    EntryFront, FRONT_MOST, LOG_ROW_MOST, OutOfMemory, ShardHeader, decode_entry, decode_header,
    decode_what, encode_entry, encode_header, front, log_key, position_of, write_bucket_row,
    write_front, write_name_row, write_shard_row, write_tag, write_what,
};
use object_words::{BucketName, Entry, Fate, Hold, ObjectName, Tag};
use rgw_types::Text;
use std::alloc::Global;
use std::test::Fail;

// All bytes here were written by another program.

/// Version 8, revision 2, 5 bytes of the type `a/b`, written at moment 5 in zone 1, without tags.
const KNOWN: [u8; 65] = [
    238, 1, 1, 0, 0, 0, 0, 0, 0, 0, 8, 0, 0, 0, 0, 0, 0, 0, 2, 0, 0, 0, 0, 0, 0, 0, 5, 0, 0, 0, 0,
    0, 0, 0, 5, 1, 93, 65, 64, 42, 188, 75, 42, 118, 185, 113, 157, 145, 16, 23, 197, 146, 0, 3,
    97, 47, 98, 0, 0, 0, 0, 0, 0, 0, 0,
];

/// The same with the tags 7 and 9.
const TAGGED: [u8; 97] = [
    238, 1, 1, 0, 0, 0, 0, 0, 0, 0, 8, 0, 0, 0, 0, 0, 0, 0, 2, 0, 0, 0, 0, 0, 0, 0, 5, 0, 0, 0, 0,
    0, 0, 0, 5, 1, 93, 65, 64, 42, 188, 75, 42, 118, 185, 113, 157, 145, 16, 23, 197, 146, 0, 3,
    97, 47, 98, 0, 0, 0, 0, 0, 0, 0, 2, 0, 0, 0, 0, 0, 0, 0, 7, 0, 0, 0, 0, 0, 0, 0, 100, 0, 0, 0,
    0, 0, 0, 0, 9, 255, 255, 255, 255, 255, 255, 255, 255,
];

/// Version 3 of an object that does not exist, with the tag 1.
const MARK: [u8; 43] = [
    238, 1, 0, 0, 0, 0, 0, 0, 0, 0, 3, 255, 255, 255, 255, 255, 255, 255, 255, 0, 0, 0, 0, 0, 0, 0,
    1, 0, 0, 0, 0, 0, 0, 0, 1, 0, 0, 0, 0, 0, 0, 0, 2,
];

/// The largest numbers, in zone 8, with an empty type.
const LARGEST: [u8; 62] = [
    238, 1, 1, 0, 0, 0, 0, 0, 0, 0, 0, 0, 0, 0, 0, 0, 0, 0, 0, 255, 255, 255, 255, 255, 255, 255,
    255, 255, 255, 255, 255, 255, 255, 255, 255, 8, 0, 1, 2, 3, 4, 5, 6, 7, 8, 9, 10, 11, 12, 13,
    14, 15, 0, 0, 0, 0, 0, 0, 0, 0, 0, 0,
];

/// What was put into bytes.
const WRITTEN: [&[u8]; 4] = [&KNOWN, &TAGGED, &MARK, &LARGEST];

/// Whether the entry is written as these bytes.
fn is_encoded(alloc: Global, entry: &Entry, bytes: &[u8]) -> Result<bool, OutOfMemory> {
    let again = encode_entry(alloc, entry)?;
    let is_same = again.as_slice() == bytes;
    drop(again);
    Ok(is_same)
}

/// Whether the entry's front is written as these bytes begin, and is as long as theirs.
fn has_front(entry: &Entry, bytes: &[u8]) -> bool {
    let mut out = [0; FRONT_MOST];
    let tags = entry.tags.len() as u64;
    let len = write_front(entry.version, entry.revision, &entry.row, tags, &mut out);
    let tags_start = front(bytes).map(|front| front.tags_start);
    bytes.starts_with(&out[..len]) && tags_start == Some(len as u64)
}

/// Whether the bytes are an entry of this name that is written as they are.
fn comes_back(alloc: Global, name: &ObjectName, bytes: &[u8]) -> Result<bool, OutOfMemory> {
    let Some(entry) = decode_entry(alloc, name, bytes)? else {
        return Ok(false);
    };
    let is_encoded = is_encoded(alloc, &entry, bytes);
    let has_front = has_front(&entry, bytes);
    drop(entry);
    Ok(is_encoded? && has_front)
}

#[test]
fn entries_come_back(rt: HostRuntime) -> Result<(), Fail> {
    let text = Text::from_str(rt.alloc(), "dog")?;
    let name = ObjectName::new(text).ok().ok_or("no name")?;
    for bytes in WRITTEN {
        assert!(rt; comes_back(rt.alloc(), &name, bytes)?);
    }
    Ok(())
}

#[test]
fn fronts_are_read(rt: HostRuntime) -> Result<(), Fail> {
    let known = EntryFront {
        version: 8,
        revision: 2,
        exists: true,
        size: 5,
        tags: 0,
        tags_start: 65,
    };
    assert_eq!(rt; front(&KNOWN), Some(known));
    let tagged = EntryFront { tags: 2, ..known };
    assert_eq!(rt; front(&TAGGED), Some(tagged));
    let mark = EntryFront {
        version: 3,
        revision: 18_446_744_073_709_551_615,
        exists: false,
        size: 0,
        tags: 1,
        tags_start: 27,
    };
    assert_eq!(rt; front(&MARK), Some(mark));
    Ok(())
}

#[test]
fn tags_are_written(rt: HostRuntime) -> Result<(), Fail> {
    let first = write_tag(&Tag {
        tag: 7,
        deadline: 100,
    });
    assert!(rt; first[..] == TAGGED[65..81]);
    let second = write_tag(&Tag {
        tag: 9,
        deadline: 18_446_744_073_709_551_615,
    });
    assert!(rt; second[..] == TAGGED[81..]);
    Ok(())
}

/// Bytes that are no entry.
const OTHERS: [&[u8]; 11] = [
    // none at all
    &[],
    // a byte less
    &[
        238, 1, 1, 0, 0, 0, 0, 0, 0, 0, 8, 0, 0, 0, 0, 0, 0, 0, 2, 0, 0, 0, 0, 0, 0, 0, 5, 0, 0, 0,
        0, 0, 0, 0, 5, 1, 93, 65, 64, 42, 188, 75, 42, 118, 185, 113, 157, 145, 16, 23, 197, 146,
        0, 3, 97, 47, 98, 0, 0, 0, 0, 0, 0, 0,
    ],
    // a byte more
    &[
        238, 1, 1, 0, 0, 0, 0, 0, 0, 0, 8, 0, 0, 0, 0, 0, 0, 0, 2, 0, 0, 0, 0, 0, 0, 0, 5, 0, 0, 0,
        0, 0, 0, 0, 5, 1, 93, 65, 64, 42, 188, 75, 42, 118, 185, 113, 157, 145, 16, 23, 197, 146,
        0, 3, 97, 47, 98, 0, 0, 0, 0, 0, 0, 0, 0, 0,
    ],
    // another kind
    &[
        239, 1, 1, 0, 0, 0, 0, 0, 0, 0, 8, 0, 0, 0, 0, 0, 0, 0, 2, 0, 0, 0, 0, 0, 0, 0, 5, 0, 0, 0,
        0, 0, 0, 0, 5, 1, 93, 65, 64, 42, 188, 75, 42, 118, 185, 113, 157, 145, 16, 23, 197, 146,
        0, 3, 97, 47, 98, 0, 0, 0, 0, 0, 0, 0, 0,
    ],
    // another layout
    &[
        238, 2, 1, 0, 0, 0, 0, 0, 0, 0, 8, 0, 0, 0, 0, 0, 0, 0, 2, 0, 0, 0, 0, 0, 0, 0, 5, 0, 0, 0,
        0, 0, 0, 0, 5, 1, 93, 65, 64, 42, 188, 75, 42, 118, 185, 113, 157, 145, 16, 23, 197, 146,
        0, 3, 97, 47, 98, 0, 0, 0, 0, 0, 0, 0, 0,
    ],
    // a flag of 2
    &[
        238, 1, 2, 0, 0, 0, 0, 0, 0, 0, 8, 0, 0, 0, 0, 0, 0, 0, 2, 0, 0, 0, 0, 0, 0, 0, 5, 0, 0, 0,
        0, 0, 0, 0, 5, 1, 93, 65, 64, 42, 188, 75, 42, 118, 185, 113, 157, 145, 16, 23, 197, 146,
        0, 3, 97, 47, 98, 0, 0, 0, 0, 0, 0, 0, 0,
    ],
    // zone 0
    &[
        238, 1, 1, 0, 0, 0, 0, 0, 0, 0, 8, 0, 0, 0, 0, 0, 0, 0, 2, 0, 0, 0, 0, 0, 0, 0, 5, 0, 0, 0,
        0, 0, 0, 0, 5, 0, 93, 65, 64, 42, 188, 75, 42, 118, 185, 113, 157, 145, 16, 23, 197, 146,
        0, 3, 97, 47, 98, 0, 0, 0, 0, 0, 0, 0, 0,
    ],
    // zone 9
    &[
        238, 1, 1, 0, 0, 0, 0, 0, 0, 0, 8, 0, 0, 0, 0, 0, 0, 0, 2, 0, 0, 0, 0, 0, 0, 0, 5, 0, 0, 0,
        0, 0, 0, 0, 5, 9, 93, 65, 64, 42, 188, 75, 42, 118, 185, 113, 157, 145, 16, 23, 197, 146,
        0, 3, 97, 47, 98, 0, 0, 0, 0, 0, 0, 0, 0,
    ],
    // tags that do not rise
    &[
        238, 1, 1, 0, 0, 0, 0, 0, 0, 0, 8, 0, 0, 0, 0, 0, 0, 0, 2, 0, 0, 0, 0, 0, 0, 0, 5, 0, 0, 0,
        0, 0, 0, 0, 5, 1, 93, 65, 64, 42, 188, 75, 42, 118, 185, 113, 157, 145, 16, 23, 197, 146,
        0, 3, 97, 47, 98, 0, 0, 0, 0, 0, 0, 0, 2, 0, 0, 0, 0, 0, 0, 0, 7, 0, 0, 0, 0, 0, 0, 0, 100,
        0, 0, 0, 0, 0, 0, 0, 7, 0, 0, 0, 0, 0, 0, 0, 101,
    ],
    // a type that is no UTF-8
    &[
        238, 1, 1, 0, 0, 0, 0, 0, 0, 0, 8, 0, 0, 0, 0, 0, 0, 0, 2, 0, 0, 0, 0, 0, 0, 0, 5, 0, 0, 0,
        0, 0, 0, 0, 5, 1, 93, 65, 64, 42, 188, 75, 42, 118, 185, 113, 157, 145, 16, 23, 197, 146,
        0, 2, 97, 255, 0, 0, 0, 0, 0, 0, 0, 0,
    ],
    // more tags than are there
    &[
        238, 1, 0, 0, 0, 0, 0, 0, 0, 0, 8, 0, 0, 0, 0, 0, 0, 0, 2, 0, 0, 0, 0, 0, 0, 0, 1,
    ],
];

#[test]
fn other_bytes_are_no_entries(rt: HostRuntime) -> Result<(), Fail> {
    for bytes in OTHERS {
        assert_eq!(rt; front(bytes), None);
    }
    Ok(())
}

/// Headers and their bytes.
const HEADERS: [(ShardHeader, [u8; 68]); 3] = [
    (
        ShardHeader {
            objects: 1,
            bytes: 5,
            tags: 2,
            last: 3,
            fence: 4,
            hold: Hold::Free,
            fate: Fate::Serving,
        },
        [
            237, 1, 0, 0, 0, 0, 0, 0, 0, 1, 0, 0, 0, 0, 0, 0, 0, 0, 0, 0, 0, 0, 0, 0, 0, 5, 0, 0,
            0, 0, 0, 0, 0, 2, 0, 0, 0, 0, 0, 0, 0, 3, 0, 0, 0, 0, 0, 0, 0, 4, 0, 0, 0, 0, 0, 0, 0,
            0, 0, 0, 0, 0, 0, 0, 0, 0, 0, 0,
        ],
    ),
    (
        ShardHeader {
            objects: 18446744073709551615,
            bytes: 340282366920938463463374607431768211455,
            tags: 0,
            last: 0,
            fence: 7,
            hold: Hold::Reshard(7),
            fate: Fate::Moved(9),
        },
        [
            237, 1, 255, 255, 255, 255, 255, 255, 255, 255, 255, 255, 255, 255, 255, 255, 255, 255,
            255, 255, 255, 255, 255, 255, 255, 255, 0, 0, 0, 0, 0, 0, 0, 0, 0, 0, 0, 0, 0, 0, 0, 0,
            0, 0, 0, 0, 0, 0, 0, 7, 1, 0, 0, 0, 0, 0, 0, 0, 7, 1, 0, 0, 0, 0, 0, 0, 0, 9,
        ],
    ),
    (
        ShardHeader {
            objects: 0,
            bytes: 18446744073709551616,
            tags: 0,
            last: 2,
            fence: 0,
            hold: Hold::Closing(1),
            fate: Fate::Closed,
        },
        [
            237, 1, 0, 0, 0, 0, 0, 0, 0, 0, 0, 0, 0, 0, 0, 0, 0, 1, 0, 0, 0, 0, 0, 0, 0, 0, 0, 0,
            0, 0, 0, 0, 0, 0, 0, 0, 0, 0, 0, 0, 0, 2, 0, 0, 0, 0, 0, 0, 0, 0, 2, 0, 0, 0, 0, 0, 0,
            0, 1, 2, 0, 0, 0, 0, 0, 0, 0, 0,
        ],
    ),
];

#[test]
fn headers_are_written_and_read(rt: HostRuntime) -> Result<(), Fail> {
    for (header, bytes) in HEADERS {
        assert!(rt; encode_header(&header) == bytes);
        assert_eq!(rt; decode_header(&bytes), Some(header));
    }
    Ok(())
}

/// Bytes that are no header.
const OTHER_HEADERS: [&[u8]; 8] = [
    // a byte less
    &[
        237, 1, 0, 0, 0, 0, 0, 0, 0, 1, 0, 0, 0, 0, 0, 0, 0, 0, 0, 0, 0, 0, 0, 0, 0, 5, 0, 0, 0, 0,
        0, 0, 0, 2, 0, 0, 0, 0, 0, 0, 0, 3, 0, 0, 0, 0, 0, 0, 0, 4, 0, 0, 0, 0, 0, 0, 0, 0, 0, 0,
        0, 0, 0, 0, 0, 0, 0,
    ],
    // a byte more
    &[
        237, 1, 0, 0, 0, 0, 0, 0, 0, 1, 0, 0, 0, 0, 0, 0, 0, 0, 0, 0, 0, 0, 0, 0, 0, 5, 0, 0, 0, 0,
        0, 0, 0, 2, 0, 0, 0, 0, 0, 0, 0, 3, 0, 0, 0, 0, 0, 0, 0, 4, 0, 0, 0, 0, 0, 0, 0, 0, 0, 0,
        0, 0, 0, 0, 0, 0, 0, 0, 0,
    ],
    // another kind
    &[
        238, 1, 0, 0, 0, 0, 0, 0, 0, 1, 0, 0, 0, 0, 0, 0, 0, 0, 0, 0, 0, 0, 0, 0, 0, 5, 0, 0, 0, 0,
        0, 0, 0, 2, 0, 0, 0, 0, 0, 0, 0, 3, 0, 0, 0, 0, 0, 0, 0, 4, 0, 0, 0, 0, 0, 0, 0, 0, 0, 0,
        0, 0, 0, 0, 0, 0, 0, 0,
    ],
    // another layout
    &[
        237, 0, 0, 0, 0, 0, 0, 0, 0, 1, 0, 0, 0, 0, 0, 0, 0, 0, 0, 0, 0, 0, 0, 0, 0, 5, 0, 0, 0, 0,
        0, 0, 0, 2, 0, 0, 0, 0, 0, 0, 0, 3, 0, 0, 0, 0, 0, 0, 0, 4, 0, 0, 0, 0, 0, 0, 0, 0, 0, 0,
        0, 0, 0, 0, 0, 0, 0, 0,
    ],
    // nothing that holds it, with a number
    &[
        237, 1, 0, 0, 0, 0, 0, 0, 0, 1, 0, 0, 0, 0, 0, 0, 0, 0, 0, 0, 0, 0, 0, 0, 0, 5, 0, 0, 0, 0,
        0, 0, 0, 2, 0, 0, 0, 0, 0, 0, 0, 3, 0, 0, 0, 0, 0, 0, 0, 4, 0, 0, 0, 0, 0, 0, 0, 0, 1, 0,
        0, 0, 0, 0, 0, 0, 0, 0,
    ],
    // a hold of kind 3
    &[
        237, 1, 0, 0, 0, 0, 0, 0, 0, 1, 0, 0, 0, 0, 0, 0, 0, 0, 0, 0, 0, 0, 0, 0, 0, 5, 0, 0, 0, 0,
        0, 0, 0, 2, 0, 0, 0, 0, 0, 0, 0, 3, 0, 0, 0, 0, 0, 0, 0, 4, 3, 0, 0, 0, 0, 0, 0, 0, 1, 0,
        0, 0, 0, 0, 0, 0, 0, 0,
    ],
    // a fate of kind 3
    &[
        237, 1, 0, 0, 0, 0, 0, 0, 0, 1, 0, 0, 0, 0, 0, 0, 0, 0, 0, 0, 0, 0, 0, 0, 0, 5, 0, 0, 0, 0,
        0, 0, 0, 2, 0, 0, 0, 0, 0, 0, 0, 3, 0, 0, 0, 0, 0, 0, 0, 4, 0, 0, 0, 0, 0, 0, 0, 0, 0, 3,
        0, 0, 0, 0, 0, 0, 0, 0,
    ],
    // closed, with a number
    &[
        237, 1, 0, 0, 0, 0, 0, 0, 0, 1, 0, 0, 0, 0, 0, 0, 0, 0, 0, 0, 0, 0, 0, 0, 0, 5, 0, 0, 0, 0,
        0, 0, 0, 2, 0, 0, 0, 0, 0, 0, 0, 3, 0, 0, 0, 0, 0, 0, 0, 4, 0, 0, 0, 0, 0, 0, 0, 0, 0, 2,
        0, 0, 0, 0, 0, 0, 0, 1,
    ],
];

#[test]
fn other_bytes_are_no_headers(rt: HostRuntime) -> Result<(), Fail> {
    for bytes in OTHER_HEADERS {
        assert_eq!(rt; decode_header(bytes), None);
    }
    Ok(())
}

/// Rows that name the object `a/1`, the shard 3 of the instance 258 of the container 7 with the name
/// `dog`, and the container `é`.
const ROWS: [&[u8]; 3] = [
    &[236, 1, 0, 97, 47, 49],
    &[
        236, 1, 1, 0, 0, 0, 0, 0, 0, 0, 7, 0, 0, 0, 0, 0, 0, 1, 2, 0, 0, 0, 3, 100, 111, 103,
    ],
    &[236, 1, 2, 195, 169],
];

/// Whether the bytes are a row, and what it names is written as they are.
fn row_comes_back(alloc: Global, bytes: &[u8]) -> Result<bool, OutOfMemory> {
    let Some(what) = decode_what(alloc, bytes)? else {
        return Ok(false);
    };
    let mut out = [0; LOG_ROW_MOST];
    let len = write_what(&what, &mut out);
    drop(what);
    Ok(bytes == &out[..len])
}

#[test]
fn log_rows_come_back(rt: HostRuntime) -> Result<(), Fail> {
    for bytes in ROWS {
        assert!(rt; row_comes_back(rt.alloc(), bytes)?);
    }
    Ok(())
}

#[test]
fn rows_of_objects_are_written(rt: HostRuntime) -> Result<(), Fail> {
    let text = Text::from_str(rt.alloc(), "a/1")?;
    let object = ObjectName::new(text).ok().ok_or("no name")?;
    let mut out = [0; LOG_ROW_MOST];
    let len = write_name_row(&object, &mut out);
    assert!(rt; ROWS[0] == &out[..len]);
    Ok(())
}

#[test]
fn rows_of_shards_are_written(rt: HostRuntime) -> Result<(), Fail> {
    let text = Text::from_str(rt.alloc(), "dog")?;
    let bucket = BucketName::new(text).ok().ok_or("no name")?;
    let mut out = [0; LOG_ROW_MOST];
    let len = write_shard_row(7, 258, 3, &bucket, &mut out);
    assert!(rt; ROWS[1] == &out[..len]);
    Ok(())
}

#[test]
fn rows_of_containers_are_written(rt: HostRuntime) -> Result<(), Fail> {
    let text = Text::from_str(rt.alloc(), "é")?;
    let bucket = BucketName::new(text).ok().ok_or("no name")?;
    let mut out = [0; LOG_ROW_MOST];
    let len = write_bucket_row(&bucket, &mut out);
    assert!(rt; ROWS[2] == &out[..len]);
    Ok(())
}

/// Bytes that are no row of a log.
const OTHER_ROWS: [&[u8]; 8] = [
    // none of what it names
    &[236, 1],
    // an empty name
    &[236, 1, 0],
    // another kind of bytes
    &[237, 1, 0, 97],
    // another layout
    &[236, 2, 0, 97],
    // a row of kind 3
    &[236, 1, 3, 97],
    // a name with a byte 0
    &[236, 1, 0, 97, 0],
    // a name that is no UTF-8
    &[236, 1, 2, 97, 255],
    // a shard without a name
    &[
        236, 1, 1, 0, 0, 0, 0, 0, 0, 0, 7, 0, 0, 0, 0, 0, 0, 1, 2, 0, 0, 0, 3,
    ],
];

#[test]
fn other_bytes_are_no_log_rows(rt: HostRuntime) -> Result<(), Fail> {
    for bytes in OTHER_ROWS {
        assert!(rt; decode_what(rt.alloc(), bytes)?.is_none());
    }
    Ok(())
}

#[test]
fn positions_are_read(rt: HostRuntime) -> Result<(), Fail> {
    let key = [0, 0, 0, 0, 0, 0, 0, 1, 2];
    assert!(rt; log_key(258) == key);
    assert_eq!(rt; position_of(&key), Some(258));
    assert_eq!(rt; position_of(&key[..8]), None);
    assert_eq!(rt; position_of(b"a/1234567"), None);
    Ok(())
}
