//! The rows of the log of a zone's containers.
ghost use Rattle.std.specs.Prelude.{◌≡◌, ◌+◌, ◌^◌, ◌<◌, IfOk, OnOk};
ghost use Rattle.object_pool.specs.Places.{Readies, object_of, rows_of};
ghost use Rattle.object_words.specs.Logs.{Log as LogOf};
ghost use Rattle.object_words.specs.Roots.{Root as RootOf};
ghost use Rattle.index_entry.specs.Numbers.{number_bytes};
ghost use Rattle.class_words.specs.LogRows.{log_attrs};
ghost use Rattle.class_words.specs.Works.{Works};
ghost use Rattle.cls_record.specs.Changes.{MayLog};
ghost use Rattle.cls_record.specs.RootObjects.{IsRoot, with_log_row};

use crate::OutOfMemory;
use crate::reader::number_in;
use index_entry::{LOG_ROW_MOST, log_key, write_bucket_row};
use object_pool::Place;
use object_words::BucketName;
use rgw_types::Bytes;
use std::alloc::Global;

/// The memory for one row more of the log.
#[derive(Drop)]
pub(crate) struct NextRow {
    position: u64,
    /// The attributes once the row is there.
    attrs: Bytes,
}

/// Takes the memory for one row more of the log.
pub(crate) fn ready_log(alloc: Global, root: &mut Place<'_>) -> Result<NextRow, OutOfMemory>
    requires { MayLog root.old }
    ensures readied { Readies root.old root.new }
    ensures next { IfOk result (λ next. (r : RootOf) → IsRoot (object_of root.old) r → r.log.last < 2 ^ 63
        → (next.position ≡ r.log.last + 1) × (next.attrs ≡ number_bytes (r.log.last + 1))) }
    ensures spare { OnOk result (0 < (rows_of root.new).spare) }
{
    let position = last_position(root.attrs()) + 1;
    let Ok(()) = root.reserve_rows(alloc, 1) else {
        return Err(OutOfMemory);
    };
    let attrs = Bytes::from_slice(alloc, &position.to_be_bytes())?;
    Ok(NextRow { position, attrs })
}

/// The last position that a log gave, by the attributes of its object; 0 for none.
fn last_position(attrs: &[u8]) -> u64
    requires { (log : LogOf) × (log.last < 2 ^ 63) × (attrs.now ≡ log_attrs log) }
    ensures { (log : LogOf) → log.last < 2 ^ 63 → attrs.now ≡ log_attrs log → result ≡ log.last }
{
    if attrs.is_empty() {
        0
    } else {
        number_in(attrs)
    }
}

/// Adds a row that names a container, for which the memory was taken. Takes none.
pub(crate) fn add_log_row(root: &mut Place<'_>, next: NextRow, name: &BucketName)
    requires root { (r : RootOf) × IsRoot (object_of root.old) r × (r.log.last < 2 ^ 63)
        × (next.position ≡ r.log.last + 1) × (next.attrs ≡ number_bytes (r.log.last + 1)) }
    requires spare { 0 < (rows_of root.old).spare }
    ensures works { Works root.old root.new }
    ensures root { (r : RootOf) → IsRoot (object_of root.old) r → r.log.last < 2 ^ 63
        → next.position ≡ r.log.last + 1 → next.attrs ≡ number_bytes (r.log.last + 1)
        → IsRoot (object_of root.new) (with_log_row r name.now) }
{
    let NextRow { position, attrs } = next;
    let mut row = [0; LOG_ROW_MOST];
    let len = write_bucket_row(name, &mut row);
    root.put_spare(&log_key(position), &row[..len]);
    root.set_attrs(attrs);
}
