//! What becomes of the entry of a name of which tags were taken.
ghost use Rattle.std.specs.Prelude.{◌≡◌, ◌+◌, ◌^◌, ◌<◌, ◌≤◌, ℕ, List, Some, None};
ghost use Rattle.omap_pages.specs.Contents.{KeepsRooms};
ghost use Rattle.omap_pages.specs.Rows as rows;
ghost use Rattle.omap_pages.specs.Rows.{value_at};
ghost use Rattle.object_pool.specs.Places.{object_of, rows_of};
ghost use Rattle.object_words.specs.declared.entry.Tag.{Tag as TagOf};
ghost use Rattle.object_words.specs.declared.log.LogWhat.TheVariants.{Name as AName};
ghost use Rattle.object_words.specs.Entries.{with_tags};
ghost use Rattle.object_words.specs.Logs.{logged};
ghost use Rattle.object_words.specs.Shards.{Shard as ShardOf, entry_at, with_entry};
ghost use Rattle.object_words.specs.ShardCalls.{settled};
ghost use Rattle.index_entry.specs.LogRows.{log_key, what_bytes};
ghost use Rattle.class_words.specs.Shards.{IsObjectName, IsShard};
ghost use Rattle.class_words.specs.Works.{Works, WorksOnRows};
ghost use Rattle.cls_index.specs.Rows.{IsLeft};

use crate::rows::{drop_if_empty, put_front, put_revision};
use class_words::put_header;
use index_entry::{EntryFront, LOG_ROW_MOST, ShardHeader, log_key, write_name_row};
use object_pool::Place;
use object_words::{EntryRow, ObjectName};

/// The bytes of a name.
pub(crate) fn bytes_of(name: &ObjectName) -> &[u8]
    ensures text { result.now ≡ name.now }
    ensures named { IsObjectName name.now }
{
    name.as_text().as_str().as_bytes()
}

/// Logs a change of a name at a position that the log has not given. Takes no memory.
fn log_change(shard: &mut Place<'_>, name: &ObjectName, position: u64)
    requires spare { 0 < (rows_of shard.old).spare }
    requires absent { value_at (rows_of shard.old).rows (log_key position) ≡ None }
    ensures works { WorksOnRows shard.old shard.new }
    ensures row { value_at (rows_of shard.new).rows (log_key position) ≡ Some (what_bytes (AName name.now)) }
    ensures others { rows.KeepsOthers (rows_of shard.old).rows (rows_of shard.new).rows (log_key position) }
    ensures rooms { KeepsRooms (rows_of shard.old) (rows_of shard.new) }
    ensures spare { (rows_of shard.new).spare + 1 ≡ (rows_of shard.old).spare }
{
    let mut out = [0; LOG_ROW_MOST];
    let len = write_name_row(name, &mut out);
    shard.put_spare(&log_key(position), &out[..len]);
}

/// Raises the revision of an entry of which tags were taken, and stores nothing. Takes no memory.
pub(crate) fn keep_row(
    shard: &mut Place<'_>,
    name: &[u8],
    header: &ShardHeader,
    front: &EntryFront,
    taken: u64,
)
    requires { (s : ShardOf) × (tags : List TagOf) × IsLeft (object_of shard.old) s name.now tags header.now front.now taken }
    ensures works { Works shard.old shard.new }
    ensures shard { (s : ShardOf) (tags : List TagOf) → IsLeft (object_of shard.old) s name.now tags header.now front.now taken
        → IsShard (object_of shard.new) (with_entry s name.now (with_tags (entry_at s name.now) tags)) }
{
    put_revision(shard, name, front.revision.saturating_add(1));
    drop_if_empty(shard, name, front.exists, front.tags);
    let counted = ShardHeader {
        tags: header.tags - taken,
        ..*header
    };
    put_header(shard, &counted);
}

/// Stores the row of a change in an entry of which tags were taken, and logs it, where its version is greater
/// than the entry's; else stores nothing. Takes no memory.
pub(crate) fn settle(
    shard: &mut Place<'_>,
    name: &ObjectName,
    header: &ShardHeader,
    front: &EntryFront,
    taken: u64,
    version: u64,
    row: &EntryRow,
)
    requires { (s : ShardOf) × (tags : List TagOf) × IsLeft (object_of shard.old) s name.now tags header.now front.now taken }
    ensures works { Works shard.old shard.new }
    ensures shard { (s : ShardOf) (tags : List TagOf) → IsLeft (object_of shard.old) s name.now tags header.now front.now taken
        → IsShard (object_of shard.new) (settled s name.now tags version row.now) }
{
    let text = bytes_of(name);
    if version > front.version {
        let revision = front.revision.saturating_add(1);
        put_front(shard, text, front, version, revision, row);
        drop_if_empty(shard, text, row.exists, front.tags);
        log_change(shard, name, header.last + 1);
        let counted = ShardHeader {
            objects: header.objects - u64::from(front.exists) + u64::from(row.exists),
            bytes: header.bytes - u128::from(front.size) + u128::from(row.size),
            tags: header.tags - taken,
            last: header.last + 1,
            ..*header
        };
        put_header(shard, &counted);
    } else {
        keep_row(shard, text, header, front, taken);
    }
}
