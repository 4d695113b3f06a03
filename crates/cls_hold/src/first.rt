//! The first entry of a shard.
ghost use Rattle.std.specs.Prelude.{◌≡◌, ◌∷◌, [], List, ℕ, None, Some, IfErr, IfOk, OnOk};
ghost use Rattle.object_pool.specs.Places.{object_of};
ghost use Rattle.object_words.specs.Entries.{EntryView};
ghost use Rattle.object_words.specs.HoldCalls.{entry_refusal};
ghost use Rattle.object_words.specs.Names.{entries};
ghost use Rattle.object_words.specs.Shards.{Shard as ShardOf};
ghost use Rattle.index_entry.specs.Layouts.{IsEntry, entry_bytes};
ghost use Rattle.class_words.specs.Shards.{IsObjectName, IsShard};
ghost use Rattle.cls_hold.specs.Firsts.{first_row};

use class_words::{look_up, name_in};
use index_entry::{front, log_key};
use object_pool::{Bytes, OutOfMemory, Place};
use object_words::Why;
use std::alloc::Global;

/// A copy of the first row of a shard that is an entry, in the order of names.
pub(crate) fn first_entry(
    alloc: Global,
    shard: &Place<'_>,
) -> Result<Option<(Bytes, Bytes)>, OutOfMemory>
    ensures { IfOk result (λ row. (s : ShardOf) → IsShard (object_of shard.now) s → row ≡ first_row (entries s.entries)) }
{
    // The rows of the log come before all names.
    let last = log_key(u64::MAX);
    look_up(shard, last.as_slice());
    let page = shard.page(alloc, last.as_slice(), 1)?;
    let mut rows = page.rows.into_vec();
    Ok(rows.pop())
}

/// Whether an entry, which has this name and these bytes, lets a shard be closed: it has no tag, and is forced.
pub(crate) fn check_entry(name: Bytes, bytes: &[u8], force: bool) -> Result<(), Why>
    requires { (e : EntryView) × IsObjectName name × IsEntry e × (bytes.now ≡ entry_bytes e) }
    ensures ok { OnOk result ((e : EntryView) (es : List (List ℕ × EntryView)) → IsEntry e → bytes.now ≡ entry_bytes e → entry_refusal ((name, e) ∷ es) force ≡ None) }
    ensures err { IfErr result (λ why. (e : EntryView) (es : List (List ℕ × EntryView)) → IsEntry e → bytes.now ≡ entry_bytes e → entry_refusal ((name, e) ∷ es) force ≡ Some why) }
{
    let told = front(bytes).unwrap();
    if told.tags > 0 {
        return Err(Why::Unsettled {
            name: name_in(name),
        });
    }
    if force {
        return Ok(());
    }
    Err(Why::NotEmpty {
        name: name_in(name),
    })
}
