mod callers;

use manifest::{Manifest, ManifestBytes, OutOfMemory, Part, Parts};
use std::alloc::Global;
use std::test::Fail;

/// Manifests and their bytes, by another program.
const ENCODINGS: [(u64, u32, u64, [u8; 21]); 4] = [
    (
        5,
        16,
        17,
        [
            1, 0, 0, 0, 0, 0, 0, 0, 5, 0, 0, 0, 16, 0, 0, 0, 0, 0, 0, 0, 17,
        ],
    ),
    (
        0,
        16,
        0,
        [
            1, 0, 0, 0, 0, 0, 0, 0, 0, 0, 0, 0, 16, 0, 0, 0, 0, 0, 0, 0, 0,
        ],
    ),
    (
        18_446_744_073_709_551_615,
        4_194_304,
        5_368_709_120,
        [
            1, 255, 255, 255, 255, 255, 255, 255, 255, 0, 64, 0, 0, 0, 0, 0, 1, 64, 0, 0, 0,
        ],
    ),
    (
        72_623_859_790_382_856,
        66_051,
        286_397_204,
        [
            1, 1, 2, 3, 4, 5, 6, 7, 8, 0, 1, 2, 3, 0, 0, 0, 0, 17, 18, 19, 20,
        ],
    ),
];

#[test]
fn manifests_are_written_and_read(rt: HostRuntime) -> Result<(), Fail> {
    for (write, stripe, size, bytes) in ENCODINGS {
        let manifest = Manifest::new(write, stripe, size);
        assert_eq!(rt; manifest.map(|m| m.encode()), Some(bytes));
        assert_eq!(rt; Manifest::decode(&bytes), manifest);
    }
    Ok(())
}

/// Bytes that are no manifest.
const OTHERS: [&[u8]; 9] = [
    // none at all
    &[],
    // 20 bytes, and 22
    &[1, 0, 0, 0, 0, 0, 0, 0, 5, 0, 0, 0, 16, 0, 0, 0, 0, 0, 0, 0],
    &[
        1, 0, 0, 0, 0, 0, 0, 0, 5, 0, 0, 0, 16, 0, 0, 0, 0, 0, 0, 0, 17, 0,
    ],
    // other layouts
    &[
        0, 0, 0, 0, 0, 0, 0, 0, 5, 0, 0, 0, 16, 0, 0, 0, 0, 0, 0, 0, 17,
    ],
    &[
        2, 0, 0, 0, 0, 0, 0, 0, 5, 0, 0, 0, 16, 0, 0, 0, 0, 0, 0, 0, 17,
    ],
    // stripes of 15, 0 and 4194305 bytes
    &[
        1, 0, 0, 0, 0, 0, 0, 0, 5, 0, 0, 0, 15, 0, 0, 0, 0, 0, 0, 0, 17,
    ],
    &[
        1, 0, 0, 0, 0, 0, 0, 0, 5, 0, 0, 0, 0, 0, 0, 0, 0, 0, 0, 0, 17,
    ],
    &[
        1, 0, 0, 0, 0, 0, 0, 0, 5, 0, 64, 0, 1, 0, 0, 0, 0, 0, 0, 0, 17,
    ],
    // 5368709121 bytes
    &[
        1, 0, 0, 0, 0, 0, 0, 0, 5, 0, 0, 0, 16, 0, 0, 0, 1, 64, 0, 0, 1,
    ],
];

#[test]
fn other_bytes_are_no_manifests(rt: HostRuntime) -> Result<(), Fail> {
    for bytes in OTHERS {
        assert_eq!(rt; Manifest::decode(bytes), None);
    }
    Ok(())
}

/// The letters a to z in stripes of 16 bytes.
const CONTENTS: [&str; 2] = ["abcdefghijklmnop", "qrstuvwxyz"];

/// Ranges of them by start and count, their parts as `part:start+count`, and their letters.
const RANGES: [(u64, u64, &str, &str); 9] = [
    (15, 2, "0:15+1 1:0+1 ", "pq"),
    (25, 1, "1:9+1 ", "z"),
    (0, 26, "0:0+16 1:0+10 ", "abcdefghijklmnopqrstuvwxyz"),
    (0, 16, "0:0+16 ", "abcdefghijklmnop"),
    (16, 10, "1:0+10 ", "qrstuvwxyz"),
    (3, 4, "0:3+4 ", "defg"),
    (15, 1, "0:15+1 ", "p"),
    (16, 0, "", ""),
    (26, 0, "", ""),
];

/// The parts as `part:start+count`.
fn text_of(alloc: Global, parts: &Parts) -> Result<String, OutOfMemory> {
    let mut text = String::new(alloc);
    for part in parts.as_slice() {
        let number = part.part;
        let start = part.start;
        let count = part.count;
        let piece = format!(in alloc; "{number}:{start}+{count} ")?;
        text.push_str(piece.as_str())?;
    }
    Ok(text)
}

/// The letters of a part, where it lies within them.
fn piece_of(part: &Part) -> Option<&'static str> {
    let start = part.start as usize;
    let content = CONTENTS.get(part.part as usize)?;
    let end = start.checked_add(part.count as usize)?;
    content.get(start..end)
}

/// The letters of the parts, where each lies within them.
fn letters_of(alloc: Global, parts: &Parts) -> Result<Option<String>, OutOfMemory> {
    let mut letters = String::new(alloc);
    for part in parts.as_slice() {
        let Some(piece) = piece_of(part) else {
            return Ok(None);
        };
        letters.push_str(piece)?;
    }
    Ok(Some(letters))
}

/// The parts of a range of the letters, where it lies within them.
fn parts_of(alloc: Global, start: u64, count: u64) -> Result<Option<Parts>, OutOfMemory> {
    let manifest = Manifest {
        write: 5,
        stripe: 16,
        size: 26,
    };
    if start > 26 || count > 26 - start {
        return Ok(None);
    }
    Ok(Some(manifest.parts(alloc, start, count)?))
}

/// Whether there are as many parts when they went through a vector.
fn come_back(parts: Parts) -> bool {
    let count = parts.len();
    let again = Parts::from_vec(parts.into_vec());
    let are_as_many = again.len() == count;
    drop(again);
    are_as_many
}

#[test]
fn ranges_are_cut_at_the_ends_of_stripes(rt: HostRuntime) -> Result<(), Fail> {
    for (start, count, pieces, letters) in RANGES {
        let parts = parts_of(rt.alloc(), start, count)?.ok_or("no range")?;
        let text = text_of(rt.alloc(), &parts)?;
        assert_eq!(rt; text.as_str(), pieces, "at {start}");
        let found = letters_of(rt.alloc(), &parts)?;
        assert_eq!(rt; found.as_deref(), Some(letters), "at {start}");
        assert_eq!(rt; parts.is_empty(), count == 0);
        assert!(rt; come_back(parts));
    }
    Ok(())
}

#[test]
fn parts_have_their_sizes(rt: HostRuntime) -> Result<(), Fail> {
    let manifest = Manifest {
        write: 5,
        stripe: 16,
        size: 33,
    };
    for (part, size) in [(0, 16), (1, 16), (2, 1), (3, 0), (4_294_967_295, 0)] {
        assert_eq!(rt; manifest.part_size(part), size, "at {part}");
    }
    Ok(())
}

/// Whether the parts are the whole of `count` stripes of 4194304 bytes.
fn are_whole_stripes(parts: &Parts, count: usize) -> bool {
    let mut next = 0;
    for part in parts.as_slice() {
        if part.part != next || part.start != 0 || part.count != 4_194_304 {
            return false;
        }
        next = next.wrapping_add(1);
    }
    parts.len() == count
}

/// 5368709120 bytes are 1280 stripes of 4194304.
#[test]
fn the_greatest_object_has_1280_parts(rt: HostRuntime) -> Result<(), Fail> {
    let manifest = Manifest {
        write: u64::MAX,
        stripe: 4_194_304,
        size: 5_368_709_120,
    };
    let whole = manifest.parts(rt.alloc(), 0, 5_368_709_120)?;
    assert!(rt; are_whole_stripes(&whole, 1280));
    let last = manifest.parts(rt.alloc(), 5_368_709_119, 1)?;
    assert_eq!(rt; text_of(rt.alloc(), &last)?.as_str(), "1279:4194303+1 ");
    assert_eq!(rt;
        (manifest.part_size(1279), manifest.part_size(1280)),
        (4_194_304, 0)
    );
    Ok(())
}
