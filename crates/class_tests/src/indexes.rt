//! Calls on a shard of a container's index.
ghost use Rattle.std.specs.Prelude.{◌≡◌, ◌+◌, ◌<◌, ◌^◌, ℕ, [], IfOk};
ghost use Rattle.object_pool.specs.Objects.{nothing};
ghost use Rattle.object_pool.specs.Places.{object_of};
ghost use Rattle.object_words.specs.Shards.{Shard as ShardOf};
ghost use Rattle.class_words.specs.Shards.{IsShard};
ghost use Rattle.class_tests.specs.Within.{IsWithin};

use crate::words::{first_shard, media_type};
use cls_hold::make;
use cls_index::{cancel, complete, page, prepare, stats, suggest, untimely};
use object_pool::{OutOfMemory, Place, Pool};
use object_words::{EntryRow, ObjectName, Why};
use rgw_types::{Stamp, Text};
use std::alloc::Global;
use std::test::Fail;

/// How long a tag lives.
const LIFE: u64 = 120_000_000;

/// When the first change of a name is prepared.
pub const START: u64 = 1_000_000;

pub fn name_of(alloc: Global, text: &str) -> Result<ObjectName, Fail> {
    let text = Text::from_str(alloc, text)?;
    Ok(ObjectName::new(text).ok().ok_or("no name")?)
}

/// A row of so many bytes, written at a moment in zone 1.
pub fn row_of(alloc: Global, size: u64, micros: u64) -> Result<EntryRow, Fail>
    ensures { IfOk result (λ row. row.size < 2 ^ 64) }
{
    Ok(EntryRow {
        exists: true,
        size,
        stamp: Stamp { micros, zone: 1 },
        etag: [7; 16],
        kind: media_type(alloc, "a/b")?,
    })
}

/// Makes a shard where nothing is.
pub fn begin(alloc: Global, shard: &mut Place<'_>) -> Result<(), OutOfMemory>
    requires { object_of shard.old ≡ nothing }
    ensures { IfOk result (λ _. (s : ShardOf) × IsShard (object_of shard.new) s × IsWithin 0 s) }
{
    make(alloc, shard)
}

/// The event of a number prepares a change of a name, and gives its tag and the tag's deadline. The last
/// event had an earlier number.
pub fn prepare_next(
    alloc: Global,
    shard: &mut Place<'_>,
    name: &ObjectName,
    last: u64,
    number: u64,
    clock: u64,
) -> Result<(u64, u64), Fail>
    requires stands { (s : ShardOf) × IsShard (object_of shard.old) s × IsWithin last s }
    requires later { last < number }
    requires few { number < 1000 }
    ensures { IfOk result (λ _. (s : ShardOf) × IsShard (object_of shard.new) s × IsWithin number s) }
{
    let Ok(guard) = prepare(alloc, shard, name, number, clock, LIFE) else {
        return Err("not prepared".into());
    };
    Ok((guard.tag, guard.deadline))
}

/// The event after so many completes a change of a name.
pub fn complete_next(
    shard: &mut Place<'_>,
    name: &ObjectName,
    tag: u64,
    version: u64,
    row: &EntryRow,
    events: u64,
) -> Result<(), Why>
    requires stands { (s : ShardOf) × IsShard (object_of shard.old) s × IsWithin events s × (events < 1000) }
    requires row { row.now.size < 2 ^ 64 }
    ensures { (s : ShardOf) × IsShard (object_of shard.new) s × IsWithin (events + 1) s }
{
    complete(shard, name, tag, version, row)
}

/// The event after so many cancels a change of a name.
fn cancel_next(shard: &mut Place<'_>, name: &ObjectName, tag: u64, events: u64) -> Result<(), Why>
    requires { (s : ShardOf) × IsShard (object_of shard.old) s × IsWithin events s × (events < 1000) }
    ensures { (s : ShardOf) × IsShard (object_of shard.new) s × IsWithin (events + 1) s }
{
    cancel(shard, name, tag)
}

/// The event after so many suggests a row, for an entry that was seen with a revision at a moment.
fn suggest_next(
    shard: &mut Place<'_>,
    name: &ObjectName,
    revision: u64,
    seen: u64,
    version: u64,
    row: &EntryRow,
    events: u64,
) -> Result<(), Why>
    requires stands { (s : ShardOf) × IsShard (object_of shard.old) s × IsWithin events s × (events < 1000) }
    requires row { row.now.size < 2 ^ 64 }
    ensures { (s : ShardOf) × IsShard (object_of shard.new) s × IsWithin (events + 1) s }
{
    if let Some(why) = untimely(shard, name, revision, seen) {
        return Err(why);
    }
    suggest(shard, name, revision, seen, version, row)
}

/// Whether a shard tells these counts.
fn tells(shard: &Place<'_>, objects: u64, bytes: u64, tags: u64) -> bool
    requires { (s : ShardOf) × IsShard (object_of shard.now) s }
{
    match stats(shard) {
        Ok(stats) => (stats.objects, stats.bytes, stats.tags) == (objects, bytes, tags),
        Err(_) => false,
    }
}

/// Whether a shard has one entry, with this version, this revision and so many tags.
fn lists(
    alloc: Global,
    shard: &Place<'_>,
    version: u64,
    revision: u64,
    tags: usize,
) -> Result<bool, Fail>
    requires { (s : ShardOf) × IsShard (object_of shard.now) s }
{
    let Ok(page) = page(alloc, shard, b"", 10, 7) else {
        return Err("no page".into());
    };
    let right = match page.rows.as_slice() {
        [entry] => (entry.version, entry.revision, entry.tags.len()) == (version, revision, tags),
        _ => false,
    };
    drop(page);
    Ok(right)
}

/// What is tried of one name in a new shard.
#[derive(Clone, Copy, Debug)]
enum Scene {
    OlderCompletion,
    StoppedWriter,
    LateSuggestion,
}

/// Whether it went as it is known to.
fn played(alloc: Global, scene: Scene) -> Result<bool, Fail> {
    let mut pool = Pool::new(alloc, 1, 16)?;
    let right = play_in(alloc, &mut pool, scene);
    drop(pool);
    right
}

fn play_in(alloc: Global, pool: &mut Pool, scene: Scene) -> Result<bool, Fail>
    requires { pool.old.slots ≡ [] }
{
    let name = name_of(alloc, "k")?;
    let key = first_shard();
    let mut shard = pool.place(alloc, &key)?;
    begin(alloc, &mut shard)?;
    let right = play(alloc, &mut shard, &name, scene);
    drop(shard);
    drop(key);
    drop(name);
    right
}

fn play(alloc: Global, shard: &mut Place<'_>, name: &ObjectName, scene: Scene) -> Result<bool, Fail>
    requires { (s : ShardOf) × IsShard (object_of shard.old) s × IsWithin 0 s }
{
    match scene {
        Scene::OlderCompletion => an_older_loses(alloc, shard, name),
        Scene::StoppedWriter => is_settled_later(alloc, shard, name),
        Scene::LateSuggestion => a_late_one_is_refused(alloc, shard, name),
    }
}

/// A change is completed after a later one, and a third one is cancelled.
fn an_older_loses(alloc: Global, shard: &mut Place<'_>, name: &ObjectName) -> Result<bool, Fail>
    requires { (s : ShardOf) × IsShard (object_of shard.old) s × IsWithin 0 s }
{
    let (first, _) = prepare_next(alloc, shard, name, 0, 1, START)?;
    let (second, _) = prepare_next(alloc, shard, name, 1, 2, START)?;
    let later = row_of(alloc, 0, 6)?;
    let earlier = row_of(alloc, 5, 5)?;
    let completed = completes_both(shard, name, &later, &earlier);
    drop(later);
    drop(earlier);
    let (third, _) = prepare_next(alloc, shard, name, 5, 6, START)?;
    let cancelled = cancel_next(shard, name, third, 6).is_ok();
    let listed = lists(alloc, shard, 4, 6, 0)?;
    Ok((first, second) == (1, 2) && completed && cancelled && listed && tells(shard, 1, 0, 0))
}

/// The later change is completed with the greater version, and the earlier one not twice.
fn completes_both(
    shard: &mut Place<'_>,
    name: &ObjectName,
    later: &EntryRow,
    earlier: &EntryRow,
) -> bool
    requires stands { (s : ShardOf) × IsShard (object_of shard.old) s × IsWithin 2 s }
    requires rows { (later.now.size < 2 ^ 64) × (earlier.now.size < 2 ^ 64) }
    ensures { (s : ShardOf) × IsShard (object_of shard.new) s × IsWithin 5 s }
{
    let second = complete_next(shard, name, 2, 4, later, 2).is_ok();
    let first = complete_next(shard, name, 1, 3, earlier, 3).is_ok();
    let again = complete_next(shard, name, 1, 5, earlier, 4);
    second && first && matches!(again, Err(Why::NoTag))
}

// The events of the next two have the numbers and the answers that another program gave them.

/// A writer stops after its change, and what was seen of it is settled once its tag is due.
fn is_settled_later(alloc: Global, shard: &mut Place<'_>, name: &ObjectName) -> Result<bool, Fail>
    requires { (s : ShardOf) × IsShard (object_of shard.old) s × IsWithin 0 s }
{
    let guard = prepare_next(alloc, shard, name, 0, 5, START)?;
    let listed = lists(alloc, shard, 0, 1, 1)?;
    let told = tells(shard, 0, 0, 1);
    let row = row_of(alloc, 5, START)?;
    let settled = suggest_next(shard, name, 1, START + LIFE, 7, &row, 5).is_ok();
    drop(row);
    Ok(guard == (5, START + LIFE) && listed && told && settled && tells(shard, 1, 5, 0))
}

/// The same, but another writer changes the name before that.
fn a_late_one_is_refused(
    alloc: Global,
    shard: &mut Place<'_>,
    name: &ObjectName,
) -> Result<bool, Fail>
    requires { (s : ShardOf) × IsShard (object_of shard.old) s × IsWithin 0 s }
{
    let first = prepare_next(alloc, shard, name, 0, 5, 0)?;
    let second = prepare_next(alloc, shard, name, 5, 12, LIFE)?;
    let seen = row_of(alloc, 5, 0)?;
    let written = row_of(alloc, 0, LIFE)?;
    let right = keeps_the_newer(alloc, shard, name, &seen, &written);
    drop(seen);
    drop(written);
    let right = right?;
    Ok(first == (5, LIFE) && second == (12, 2 * LIFE) && right)
}

fn keeps_the_newer(
    alloc: Global,
    shard: &mut Place<'_>,
    name: &ObjectName,
    seen: &EntryRow,
    written: &EntryRow,
) -> Result<bool, Fail>
    requires stands { (s : ShardOf) × IsShard (object_of shard.old) s × IsWithin 12 s }
    requires rows { (seen.now.size < 2 ^ 64) × (written.now.size < 2 ^ 64) }
{
    let completed = complete_next(shard, name, 12, 14, written, 12).is_ok();
    let late = suggest_next(shard, name, 1, LIFE, 7, seen, 13);
    let refused = matches!(late, Err(Why::Stale { revision: 3 }));
    let told = tells(shard, 1, 0, 1);
    let listed = lists(alloc, shard, 14, 3, 1)?;
    let settled = suggest_next(shard, name, 3, LIFE, 14, written, 14).is_ok();
    Ok(completed && refused && told && listed && settled && tells(shard, 1, 0, 0))
}

#[test]
fn an_older_completion_loses(rt: HostRuntime) -> Result<(), Fail> {
    assert!(rt; played(rt.alloc(), Scene::OlderCompletion)?);
    Ok(())
}

#[test]
fn a_stopped_change_is_settled_later(rt: HostRuntime) -> Result<(), Fail> {
    assert!(rt; played(rt.alloc(), Scene::StoppedWriter)?);
    Ok(())
}

#[test]
fn a_late_suggestion_is_refused(rt: HostRuntime) -> Result<(), Fail> {
    assert!(rt; played(rt.alloc(), Scene::LateSuggestion)?);
    Ok(())
}
