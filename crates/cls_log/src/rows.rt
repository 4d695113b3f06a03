ghost use Rattle.std.specs.Prelude.{◌≡◌, ◌^◌, ◌<◌, ℕ, List, IfOk};
ghost use Rattle.std.specs.List.{AllByRecursion};
ghost use Rattle.object_pool.specs.Places.{object_of};
ghost use Rattle.object_words.specs.declared.log.LogRow.{LogRow as RowOf};
ghost use Rattle.object_words.specs.Logs.{Log as LogOf, first_position};
ghost use Rattle.index_entry.specs.LogRows.{log_key, what_bytes};
ghost use Rattle.class_words.specs.LogRows.{log_rows};
ghost use Rattle.cls_log.specs.LogObjects.{IsFit, IsLogObject};

use index_entry::{decode_what, position_of, u64_at};
use object_pool::{OutOfMemory, Place};
use object_words::{LogRow, LogRows};
use rgw_types::Bytes;
use std::alloc::Global;

/// The last position that the log gave; 0 for none.
pub(crate) fn last_of(log: &Place<'_>) -> u64
    requires { (l : LogOf) × IsLogObject (object_of log.now) l }
    ensures { (l : LogOf) → IsLogObject (object_of log.now) l → result ≡ l.last }
{
    let attrs = log.attrs();
    if attrs.is_empty() {
        return 0;
    }
    u64_at(attrs, 0)
}

/// The lowest position that the log keeps, or the next one where none is kept.
pub(crate) fn first_of(alloc: Global, log: &Place<'_>) -> Result<u64, OutOfMemory>
    requires { (l : LogOf) × IsLogObject (object_of log.now) l }
    ensures { IfOk result (λ first. (l : LogOf) → IsLogObject (object_of log.now) l → first ≡ first_position l.rows l.last) }
{
    let page = log.page(alloc, &[], 1)?;
    match page.rows.as_slice().first() {
        Some(row) => Ok(position_of(row.0.as_slice()).unwrap()),
        None => Ok(last_of(log).saturating_add(1)),
    }
}

/// The rows of a log that are written so.
pub(crate) fn read_rows(alloc: Global, rows: &[(Bytes, Bytes)]) -> Result<LogRows, OutOfMemory>
    requires { (kept : List RowOf) × AllByRecursion IsFit kept × (rows.now ≡ log_rows kept) }
    ensures { IfOk result (λ read. (kept : List RowOf) → AllByRecursion IsFit kept → rows.now ≡ log_rows kept → read ≡ kept) }
{
    let mut read = LogRows::new(alloc);
    for row in rows {
        let row = read_row(alloc, row)?;
        read.push(row)?;
    }
    Ok(read)
}

/// The row of a log that is written so.
fn read_row(alloc: Global, row: &(Bytes, Bytes)) -> Result<LogRow, OutOfMemory>
    requires { (r : RowOf) × IsFit r × (row.now ≡ (log_key r.position, what_bytes r.what)) }
    ensures { IfOk result (λ read. (r : RowOf) → IsFit r → row.now ≡ (log_key r.position, what_bytes r.what) → read ≡ r) }
{
    let position = position_of(row.0.as_slice()).unwrap();
    let what = decode_what(alloc, row.1.as_slice())?.unwrap();
    Ok(LogRow { position, what })
}
