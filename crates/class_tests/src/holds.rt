//! The making of a shard, what holds it, and its end.
ghost use Rattle.std.specs.Prelude.{◌≡◌, [], IfOk};
ghost use Rattle.object_pool.specs.Places.{object_of};
ghost use Rattle.object_words.specs.Shards.{Shard as ShardOf};
ghost use Rattle.class_words.specs.Shards.{IsShard};
ghost use Rattle.class_tests.specs.Within.{IsWithin};

use crate::indexes::{START, begin, complete_next, name_of, prepare_next, row_of};
use crate::words::first_shard;
use cls_hold::{close, make, release, shut};
use cls_index::stats;
use index_entry::{ShardHeader, decode_header, log_key};
use object_pool::{Place, Pool};
use object_words::{ClassFault, Fate, Hold, ObjectName, Why};
use std::alloc::Global;
use std::test::Fail;

/// Closes a shard, or tries to.
fn closing(alloc: Global, shard: &mut Place<'_>, id: u64, force: bool) -> Result<(), ClassFault>
    requires { (s : ShardOf) × IsShard (object_of shard.old) s }
    ensures { (s : ShardOf) × IsShard (object_of shard.new) s }
{
    close(alloc, shard, id, force)
}

/// Releases a shard up to a number.
fn releasing(shard: &mut Place<'_>, id: u64)
    requires { (s : ShardOf) × IsShard (object_of shard.old) s }
    ensures { (s : ShardOf) × IsShard (object_of shard.new) s }
{
    release(shard, id);
}

/// Whether a shard has this hold and this fence.
fn is_held(shard: &Place<'_>, hold: Hold, fence: u64) -> bool
    requires { (s : ShardOf) × IsShard (object_of shard.now) s }
{
    match stats(shard) {
        Ok(stats) => stats.hold == hold && stats.fence == fence,
        Err(_) => false,
    }
}

/// What is tried of a new shard.
#[derive(Clone, Copy, Debug)]
enum Scene {
    Numbers,
    Releases,
    Unsettled,
    Forced,
    Shut,
}

/// Whether it went as the definitions say.
fn played(alloc: Global, scene: Scene) -> Result<bool, Fail> {
    let mut pool = Pool::new(alloc, 1, 16)?;
    let right = play_in(alloc, &mut pool, scene);
    drop(pool);
    right
}

fn play_in(alloc: Global, pool: &mut Pool, scene: Scene) -> Result<bool, Fail>
    requires { pool.old.slots ≡ [] }
{
    let name = name_of(alloc, "k")?;
    let key = first_shard();
    let mut shard = pool.place(alloc, &key)?;
    begin(alloc, &mut shard)?;
    let right = play(alloc, &mut shard, &name, scene);
    drop(shard);
    drop(key);
    drop(name);
    right
}

fn play(alloc: Global, shard: &mut Place<'_>, name: &ObjectName, scene: Scene) -> Result<bool, Fail>
    requires { (s : ShardOf) × IsShard (object_of shard.old) s × IsWithin 0 s }
{
    match scene {
        Scene::Numbers => Ok(closes_by_rising_numbers(alloc, shard)),
        Scene::Releases => Ok(releases_and_fences(alloc, shard)),
        Scene::Unsettled => meets_a_tag(alloc, shard, name),
        Scene::Forced => meets_an_entry(alloc, shard, name),
        Scene::Shut => is_shut(alloc, shard, name),
    }
}

/// Closings of 5, again 5, 4, 7, 5 and 6: a lower hold is replaced, and its number is the fence then.
fn closes_by_rising_numbers(alloc: Global, shard: &mut Place<'_>) -> bool
    requires { (s : ShardOf) × IsShard (object_of shard.old) s }
{
    let first = closing(alloc, shard, 5, false).is_ok() && is_held(shard, Hold::Closing(5), 0);
    let again = closing(alloc, shard, 5, false).is_ok() && is_held(shard, Hold::Closing(5), 0);
    let lower = closing(alloc, shard, 4, true);
    let kept = is_held(shard, Hold::Closing(5), 0);
    let higher = closing(alloc, shard, 7, false).is_ok() && is_held(shard, Hold::Closing(7), 5);
    let fenced = closing(alloc, shard, 5, true);
    let held = closing(alloc, shard, 6, true);
    first
        && again
        && matches!(lower, Err(ClassFault::No(Why::Held { id: 5 })))
        && kept
        && higher
        && matches!(fenced, Err(ClassFault::No(Why::Fenced { fence: 5 })))
        && matches!(held, Err(ClassFault::No(Why::Held { id: 7 })))
        && is_held(shard, Hold::Closing(7), 5)
}

/// Releases up to 6, 7, 3 and 20 of a shard that 7 closes, and then 9.
fn releases_and_fences(alloc: Global, shard: &mut Place<'_>) -> bool
    requires { (s : ShardOf) × IsShard (object_of shard.old) s }
{
    let closed = closing(alloc, shard, 7, false).is_ok();
    releasing(shard, 6);
    let below = is_held(shard, Hold::Closing(7), 6);
    releasing(shard, 7);
    let at = is_held(shard, Hold::Free, 7);
    releasing(shard, 3);
    let lower = is_held(shard, Hold::Free, 7);
    let fenced = closing(alloc, shard, 7, false);
    let again = closing(alloc, shard, 9, false).is_ok() && is_held(shard, Hold::Closing(9), 7);
    releasing(shard, 20);
    let above = is_held(shard, Hold::Free, 20);
    closed
        && below
        && at
        && lower
        && matches!(fenced, Err(ClassFault::No(Why::Fenced { fence: 7 })))
        && again
        && above
}

/// A change of the one entry is under way, which no force overrules.
fn meets_a_tag(alloc: Global, shard: &mut Place<'_>, name: &ObjectName) -> Result<bool, Fail>
    requires { (s : ShardOf) × IsShard (object_of shard.old) s × IsWithin 0 s }
{
    prepare_next(alloc, shard, name, 0, 1, START)?;
    let refused = closing(alloc, shard, 5, true);
    let told =
        matches!(&refused, Err(ClassFault::No(Why::Unsettled { name })) if name.as_text().is("k"));
    drop(refused);
    Ok(told && is_held(shard, Hold::Free, 0))
}

/// The first entry has no change under way, and the one behind it has one.
fn fill(alloc: Global, shard: &mut Place<'_>, name: &ObjectName) -> Result<(), Fail>
    requires { (s : ShardOf) × IsShard (object_of shard.old) s × IsWithin 0 s }
    ensures { IfOk result (λ _. (s : ShardOf) × IsShard (object_of shard.new) s) }
{
    let behind = name_of(alloc, "l")?;
    let row = row_of(alloc, 5, START)?;
    prepare_next(alloc, shard, name, 0, 1, START)?;
    let completed = complete_next(shard, name, 1, 2, &row, 1);
    drop(row);
    prepare_next(alloc, shard, &behind, 2, 3, START)?;
    drop(behind);
    if completed.is_err() {
        return Err("not completed".into());
    }
    Ok(())
}

/// The first entry is in the way of a closing that is not forced.
fn meets_an_entry(alloc: Global, shard: &mut Place<'_>, name: &ObjectName) -> Result<bool, Fail>
    requires { (s : ShardOf) × IsShard (object_of shard.old) s × IsWithin 0 s }
{
    fill(alloc, shard, name)?;
    let refused = closing(alloc, shard, 5, false);
    let told =
        matches!(&refused, Err(ClassFault::No(Why::NotEmpty { name })) if name.as_text().is("k"));
    drop(refused);
    let free = is_held(shard, Hold::Free, 0);
    let forced = closing(alloc, shard, 5, true).is_ok();
    Ok(told && free && forced && is_held(shard, Hold::Closing(5), 0))
}

/// A closed shard of two entries and one row of the log is shut.
fn is_shut(alloc: Global, shard: &mut Place<'_>, name: &ObjectName) -> Result<bool, Fail>
    requires { (s : ShardOf) × IsShard (object_of shard.old) s × IsWithin 0 s }
{
    fill(alloc, shard, name)?;
    let closed = closing(alloc, shard, 5, true).is_ok();
    releasing(shard, 3);
    Ok(closed && has_rows(shard, true) && leaves_the_log(alloc, shard))
}

/// Whether a shard has its row of the log, and its two entries or none.
fn has_rows(shard: &Place<'_>, entries: bool) -> bool {
    shard.row(&log_key(1)).is_some()
        && shard.row(b"k").is_some() == entries
        && shard.row(b"l").is_some() == entries
}

/// Whether a shard that 5 holds over the fence 3 is shut so that its header is this and it takes no closing.
fn leaves_the_log(alloc: Global, shard: &mut Place<'_>) -> bool
    requires { (s : ShardOf) × IsShard (object_of shard.old) s }
{
    shutting(shard);
    let header = ShardHeader {
        objects: 0,
        bytes: 0,
        tags: 0,
        last: 1,
        hold: Hold::Closing(5),
        fate: Fate::Closed,
        fence: 3,
    };
    let told = decode_header(shard.attrs()) == Some(header) && has_rows(shard, false);
    let refused = closing(alloc, shard, 9, true);
    told && matches!(refused, Err(ClassFault::No(Why::Closed)))
}

/// Shuts a shard.
fn shutting(shard: &mut Place<'_>)
    requires { (s : ShardOf) × IsShard (object_of shard.old) s }
    ensures { (s : ShardOf) × IsShard (object_of shard.new) s }
{
    shut(shard);
}

#[test]
fn a_shard_is_made(rt: HostRuntime) -> Result<(), Fail> {
    let alloc = rt.alloc();
    let mut pool = Pool::new(alloc, 1, 16)?;
    let key = first_shard();
    let mut shard = pool.place(alloc, &key)?;
    make(alloc, &mut shard)?;
    assert!(rt; shard.exists());
    Ok(())
}

#[test]
fn a_shard_is_closed_by_rising_numbers(rt: HostRuntime) -> Result<(), Fail> {
    assert!(rt; played(rt.alloc(), Scene::Numbers)?);
    Ok(())
}

#[test]
fn a_release_frees_and_fences(rt: HostRuntime) -> Result<(), Fail> {
    assert!(rt; played(rt.alloc(), Scene::Releases)?);
    Ok(())
}

#[test]
fn a_change_under_way_is_in_the_way(rt: HostRuntime) -> Result<(), Fail> {
    assert!(rt; played(rt.alloc(), Scene::Unsettled)?);
    Ok(())
}

#[test]
fn an_entry_is_closed_by_force(rt: HostRuntime) -> Result<(), Fail> {
    assert!(rt; played(rt.alloc(), Scene::Forced)?);
    Ok(())
}

#[test]
fn a_shut_shard_keeps_its_log(rt: HostRuntime) -> Result<(), Fail> {
    assert!(rt; played(rt.alloc(), Scene::Shut)?);
    Ok(())
}
