//! The log of a zone's data.
ghost use Rattle.object_pool.specs.Places.{object_of};
ghost use Rattle.object_words.specs.Logs.{Log as LogOf};
ghost use Rattle.cls_log.specs.LogObjects.{IsLogObject};

use crate::words::bucket_name;
use cls_log::{add, after};
use object_pool::{Place, Pool};
use object_words::{LogPage, LogWhat};
use rgw_types::Key;
use std::alloc::Global;
use std::test::Fail;

/// The shard of this number of one container.
fn shard(alloc: Global, shard: u32) -> Result<LogWhat, Fail> {
    Ok(LogWhat::Shard {
        container: 7,
        instance: 9,
        shard,
        bucket: bucket_name(alloc, "dog")?,
    })
}

/// Whether the page has a row of each of these positions, which names the shard of that number.
fn has_rows(page: &LogPage, positions: &[u64]) -> bool {
    let rows = page.rows.as_slice();
    rows.len() == positions.len()
        && rows.iter().zip(positions).all(|(row, position)| {
            row.position == *position
                && matches!(&row.what, LogWhat::Shard { shard, .. } if u64::from(*shard) == *position)
        })
}

/// Whether the log of three rows has these pages: one row, the last rows, and none behind these.
fn has_pages(alloc: Global, log: &Place<'_>) -> Result<bool, Fail>
    requires { (l : LogOf) × IsLogObject (object_of log.now) l }
{
    let one = after(alloc, log, 1, 1).ok().ok_or("trimmed")?;
    let last = after(alloc, log, 1, 2).ok().ok_or("trimmed")?;
    let none = after(alloc, log, u64::MAX, 2).ok().ok_or("trimmed")?;
    let told = (one.last, one.first, one.tags) == (3, 1, 0);
    Ok(
        told && has_rows(&one, &[2])
            && has_rows(&last, &[2, 3])
            && has_rows(&none, &[])
            && (one.end, last.end, none.end) == (false, true, true),
    )
}

#[test]
fn rows_are_added_and_read(rt: HostRuntime) -> Result<(), Fail> {
    let alloc = rt.alloc();
    let mut pool = Pool::new(alloc, 1, 16)?;
    let mut log = pool.place(alloc, &Key::Changes)?;
    assert_eq!(rt; add(alloc, &mut log, &shard(alloc, 1)?)?, 1);
    assert_eq!(rt; add(alloc, &mut log, &shard(alloc, 2)?)?, 2);
    assert_eq!(rt; add(alloc, &mut log, &shard(alloc, 3)?)?, 3);

    assert!(rt; has_pages(alloc, &log)?);
    Ok(())
}
