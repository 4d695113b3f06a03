ghost use Rattle.std.specs.Prelude.{◌≡◌, ℕ, List, IfOk, map};
ghost use Rattle.std.specs.List.{AllByRecursion};
ghost use Rattle.object_pool.specs.Places.{object_of};
ghost use Rattle.object_words.specs.Answers.{Answers};
ghost use Rattle.object_words.specs.Entries.{EntryView};
ghost use Rattle.object_words.specs.Refusals.{fate_refusal};
ghost use Rattle.object_words.specs.Shards.{Shard as ShardOf};
ghost use Rattle.object_words.specs.ShardCalls.{page_of};
ghost use Rattle.index_entry.specs.Layouts.{IsEntry, entry_bytes};
ghost use Rattle.class_words.specs.Shards.{IsShard};
ghost use Rattle.class_words.specs.Pages.{written};
ghost use Rattle.cls_index.specs.Pages.{IsNamed};

use class_words::{check_serves, header_at, later_of, look_up, name_in};
use index_entry::{log_key, read_entry};
use object_pool::{Bytes, Place};
use object_words::{ClassFault, Entries, EntryPage};
use std::alloc::{AllocError, Global};

/// The entries above a text in the order of their names, at most `limit` of them, and whether no further
/// one follows. A shard that is held answers too. The text is any bytes.
pub fn page(
    alloc: Global,
    shard: &Place<'_>,
    after: &[u8],
    limit: u32,
    clock: u64,
) -> Result<EntryPage, ClassFault>
    requires { (s : ShardOf) × IsShard (object_of shard.now) s }
    ensures { (s : ShardOf) → IsShard (object_of shard.now) s
        → Answers result (fate_refusal s.fate) (λ page. page ≡ page_of s after.now limit clock) (IsShard (object_of shard.now)) s s }
{
    let header = header_at(shard);
    if let Err(why) = check_serves(&header) {
        return Err(ClassFault::No(why));
    }
    // The rows of the log come before all names.
    let last = log_key(u64::MAX);
    let start = later_of(after, last.as_slice());
    look_up(shard, start);
    let Ok(page) = shard.page(alloc, start, limit) else {
        return Err(ClassFault::OutOfMemory);
    };
    let end = page.end;
    let Ok(rows) = entries_in(alloc, page.rows.into_vec()) else {
        return Err(ClassFault::OutOfMemory);
    };
    Ok(EntryPage { rows, end, clock })
}

/// The entries that rows are, in the memory of their keys.
fn entries_in(alloc: Global, rows: Vec<(Bytes, Bytes)>) -> Result<Entries, AllocError>
    requires { (es : List (List ℕ × EntryView)) × (rows.items ≡ map written es) × AllByRecursion IsNamed es }
    ensures { IfOk result (λ entries. (es : List (List ℕ × EntryView)) → rows.items ≡ map written es → AllByRecursion IsNamed es → entries ≡ es) }
{
    let mut entries = Vec::with_capacity(alloc, rows.len())?;
    let mut rest = rows.into_iter();
    'rows: while let Some((key, bytes)) = rest.next() {
        let entry = read_entry(alloc, name_in(key), bytes.as_slice())?;
        entries.push(entry)?;
    }
    Ok(Entries::from_vec(entries))
}
