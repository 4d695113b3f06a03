//! Rows to write.
use list_words::{ListedRow, ListedRows, ListedThing};
use object_words::{MediaType, ObjectName};
use rgw_types::{Stamp, Text};
use std::alloc::{AllocError, Global};
use swift_reply::{AccountRow, AccountRows};

/// Rows of objects with names of 20 bytes, in some of which three bytes need escapes.
pub fn rows(alloc: Global, count: u32, escapes: bool) -> Result<ListedRows, AllocError> {
    let mut rows = ListedRows::new(alloc);
    for n in 0..count {
        let name = if escapes {
            format!(in alloc; "photos/\"a\"\n-{n:09}")?
        } else {
            format!(in alloc; "photos/abcd{n:09}")?
        };
        if let Ok(name) = ObjectName::new(Text::from_string(name)) {
            rows.push(ListedRow::Thing(name, thing(alloc, n)?))?;
        }
    }
    Ok(rows)
}

// The moments are some twelve seconds apart.
fn thing(alloc: Global, n: u32) -> Result<ListedThing, AllocError> {
    let kind = Text::from_str(alloc, "application/octet-stream")?;
    Ok(ListedThing {
        size: u64::from(n) * 4321,
        stamp: Stamp {
            micros: 1_700_000_000_000_000 + u64::from(n) * 12_345_678,
            zone: 1,
        },
        etag: [(n % 256) as u8; 16],
        kind: MediaType::new(kind).unwrap_or(MediaType::absent(alloc)),
    })
}

/// Rows of containers with names of 20 bytes.
pub fn account_rows(alloc: Global, count: u32) -> Result<AccountRows, AllocError> {
    let mut rows = AccountRows::new(alloc);
    for n in 0..count {
        rows.push(AccountRow {
            name: Text::from_string(format!(in alloc; "container-{n:010}")?),
            count: u64::from(n),
            bytes: u64::from(n) * 4321,
            subdir: false,
        })?;
    }
    Ok(rows)
}
