//! Each kind of operation: its call, and the reply to it.
ghost use Rattle.std.specs.Prelude.{◌≡◌, ◌≤◌, ℕ, Option};
ghost use Rattle.realm_model.specs.Settings.{SettingsView};
ghost use Rattle.realm_model.specs.States.{State, number_next};
ghost use Rattle.realm_model.specs.declared.op.Op.TheVariants.{AccountPage, Announce, BucketPage, BucketRead, BucketSwap, Cancel, CloseShard, Complete, HeadRead, HeadWrite, Page, Prepare, Release, ShardMake, Shut, Stats, Suggest, TailMake, TailRead};
ghost use Rattle.zone_core.specs.Bounds.{CanStep, IsReady};
ghost use Rattle.zone_core.specs.Calls.{Performs, fault_reply};

use crate::heads::{make_tail_at, read_head, read_tail_at, write_head};
use crate::records::{account_page_at, announce, bucket_page_at, read_bucket, swap_bucket};
use crate::shards::{
    cancel_at, close_at, complete_at, make_at, page_at, prepare_at, release_at, shut_at, stats_at,
    suggest_at,
};
use object_pool::{OutOfMemory, Pool};
use object_words::{
    Bucket, BucketName, ClassFault, Conditions, EntryRow, Guard, LogWhat, NewHead, ObjectName,
    ShardKey, Why,
};
use realm_model::{Reply, Settings};
use rgw_types::{PartNumber, Text};
use std::alloc::Global;

/// The reply to a call that failed.
fn fault_reply(fault: ClassFault) -> Result<Reply, OutOfMemory>
    ensures { result ≡ fault_reply fault }
{
    match fault {
        ClassFault::No(why) => Ok(Reply::No(why)),
        ClassFault::OutOfMemory => Err(OutOfMemory),
    }
}

pub(crate) fn bucket_read(
    alloc: Global,
    pool: &mut Pool,
    name: &BucketName,
) -> Result<Reply, OutOfMemory>
    requires ready { CanStep pool.old }
    ensures { (settings : SettingsView) (zone : ℕ) (st : State) → IsReady settings zone pool.old st
        → Performs settings zone st (BucketRead zone name.now) result pool.new }
{
    let Ok(found) = read_bucket(alloc, pool, name) else {
        return Err(OutOfMemory);
    };
    match found {
        Some(row) => Ok(Reply::Row(row)),
        None => Ok(Reply::No(Why::Absent)),
    }
}

pub(crate) fn bucket_swap(
    alloc: Global,
    pool: &mut Pool,
    zone: u8,
    name: &BucketName,
    expected: u64,
    new: &Option<Bucket>,
    number: u64,
) -> Result<Reply, OutOfMemory>
    requires ready { (settings : SettingsView) × (st : State) × IsReady settings zone pool.old st }
    ensures { (settings : SettingsView) (st : State) → IsReady settings zone pool.old st → number ≡ number_next st
        → Performs settings zone st (BucketSwap zone name.now expected new.now) result pool.new }
{
    // Zone 1 is the master of the containers.
    match swap_bucket(alloc, pool, name, expected, new.as_ref(), zone == 1, number) {
        Ok(()) => Ok(Reply::Done),
        Err(fault) => fault_reply(fault),
    }
}

pub(crate) fn account_page(
    alloc: Global,
    pool: &mut Pool,
    account: &Text,
    after: &Text,
    limit: u32,
) -> Result<Reply, OutOfMemory>
    requires ready { CanStep pool.old }
    ensures { (settings : SettingsView) (zone : ℕ) (st : State) → IsReady settings zone pool.old st
        → Performs settings zone st (AccountPage zone account.now after.now limit) result pool.new }
{
    let names = account_page_at(alloc, pool, account, after, limit)?;
    Ok(Reply::Names(names))
}

pub(crate) fn bucket_page(
    alloc: Global,
    pool: &mut Pool,
    after: &Text,
    limit: u32,
) -> Result<Reply, OutOfMemory>
    requires ready { CanStep pool.old }
    ensures { (settings : SettingsView) (zone : ℕ) (st : State) → IsReady settings zone pool.old st
        → Performs settings zone st (BucketPage zone after.now limit) result pool.new }
{
    let names = bucket_page_at(alloc, pool, after, limit)?;
    Ok(Reply::Names(names))
}

pub(crate) fn shard_make(
    alloc: Global,
    pool: &mut Pool,
    key: ShardKey,
) -> Result<Reply, OutOfMemory>
    requires ready { CanStep pool.old }
    ensures { (settings : SettingsView) (zone : ℕ) (st : State) → IsReady settings zone pool.old st
        → Performs settings zone st (ShardMake zone key) result pool.new }
{
    let key = key.to_key();
    match make_at(alloc, pool, &key) {
        Ok(()) => Ok(Reply::Done),
        Err(fault) => Err(fault),
    }
}

pub(crate) fn prepare(
    alloc: Global,
    pool: &mut Pool,
    settings: &Settings,
    key: ShardKey,
    name: &ObjectName,
    number: u64,
    clock: u64,
) -> Result<Reply, OutOfMemory>
    requires ready { (zone : ℕ) × (st : State) × IsReady settings.now zone pool.old st × (number ≡ number_next st) }
    ensures { (zone : ℕ) (st : State) → IsReady settings.now zone pool.old st → number ≡ number_next st → clock ≡ st.clock
        → Performs settings.now zone st (Prepare zone key name.now) result pool.new }
{
    let key = key.to_key();
    match prepare_at(alloc, pool, &key, name, number, clock, settings.tag_life) {
        Ok(guard) => Ok(Reply::Prepared(guard)),
        Err(fault) => fault_reply(fault),
    }
}

pub(crate) fn complete(
    pool: &mut Pool,
    key: ShardKey,
    name: &ObjectName,
    tag: u64,
    version: u64,
    row: &EntryRow,
) -> Result<Reply, OutOfMemory>
    requires ready { CanStep pool.old }
    ensures { (settings : SettingsView) (zone : ℕ) (st : State) → IsReady settings zone pool.old st
        → Performs settings zone st (Complete zone key name.now tag version row.now) result pool.new }
{
    let key = key.to_key();
    match complete_at(pool, &key, name, tag, version, row) {
        Ok(()) => Ok(Reply::Done),
        Err(why) => Ok(Reply::No(why)),
    }
}

pub(crate) fn cancel(
    pool: &mut Pool,
    key: ShardKey,
    name: &ObjectName,
    tag: u64,
) -> Result<Reply, OutOfMemory>
    requires ready { CanStep pool.old }
    ensures { (settings : SettingsView) (zone : ℕ) (st : State) → IsReady settings zone pool.old st
        → Performs settings zone st (Cancel zone key name.now tag) result pool.new }
{
    let key = key.to_key();
    match cancel_at(pool, &key, name, tag) {
        Ok(()) => Ok(Reply::Done),
        Err(why) => Ok(Reply::No(why)),
    }
}

pub(crate) fn suggest(
    pool: &mut Pool,
    key: ShardKey,
    name: &ObjectName,
    revision: u64,
    seen: u64,
    version: u64,
    row: &EntryRow,
) -> Result<Reply, OutOfMemory>
    requires ready { CanStep pool.old }
    ensures { (settings : SettingsView) (zone : ℕ) (st : State) → IsReady settings zone pool.old st
        → Performs settings zone st (Suggest zone key name.now revision seen version row.now) result pool.new }
{
    let key = key.to_key();
    match suggest_at(pool, &key, name, revision, seen, version, row) {
        Ok(()) => Ok(Reply::Done),
        Err(why) => Ok(Reply::No(why)),
    }
}

pub(crate) fn page(
    alloc: Global,
    pool: &mut Pool,
    key: ShardKey,
    after: &Text,
    limit: u32,
    clock: u64,
) -> Result<Reply, OutOfMemory>
    requires ready { CanStep pool.old }
    ensures { (settings : SettingsView) (zone : ℕ) (st : State) → IsReady settings zone pool.old st → clock ≡ st.clock
        → Performs settings zone st (Page zone key after.now limit) result pool.new }
{
    let key = key.to_key();
    match page_at(alloc, pool, &key, after.as_bytes(), limit, clock) {
        Ok(page) => Ok(Reply::Entries(page)),
        Err(fault) => fault_reply(fault),
    }
}

pub(crate) fn stats(pool: &mut Pool, key: ShardKey) -> Result<Reply, OutOfMemory>
    requires ready { CanStep pool.old }
    ensures { (settings : SettingsView) (zone : ℕ) (st : State) → IsReady settings zone pool.old st
        → Performs settings zone st (Stats zone key) result pool.new }
{
    let key = key.to_key();
    match stats_at(pool, &key) {
        Ok(stats) => Ok(Reply::Stats(stats)),
        Err(why) => Ok(Reply::No(why)),
    }
}

pub(crate) fn close_shard(
    alloc: Global,
    pool: &mut Pool,
    key: ShardKey,
    id: u64,
    force: bool,
) -> Result<Reply, OutOfMemory>
    requires ready { CanStep pool.old }
    ensures { (settings : SettingsView) (zone : ℕ) (st : State) → IsReady settings zone pool.old st
        → Performs settings zone st (CloseShard zone key id force) result pool.new }
{
    let key = key.to_key();
    match close_at(alloc, pool, &key, id, force) {
        Ok(()) => Ok(Reply::Done),
        Err(fault) => fault_reply(fault),
    }
}

pub(crate) fn release(pool: &mut Pool, key: ShardKey, id: u64) -> Result<Reply, OutOfMemory>
    requires ready { CanStep pool.old }
    ensures { (settings : SettingsView) (zone : ℕ) (st : State) → IsReady settings zone pool.old st
        → Performs settings zone st (Release zone key id) result pool.new }
{
    let key = key.to_key();
    release_at(pool, &key, id);
    Ok(Reply::Done)
}

pub(crate) fn shut(pool: &mut Pool, key: ShardKey) -> Result<Reply, OutOfMemory>
    requires ready { CanStep pool.old }
    ensures { (settings : SettingsView) (zone : ℕ) (st : State) → IsReady settings zone pool.old st
        → Performs settings zone st (Shut zone key) result pool.new }
{
    let key = key.to_key();
    shut_at(pool, &key);
    Ok(Reply::Done)
}

pub(crate) fn head_read(
    alloc: Global,
    pool: &mut Pool,
    container: u64,
    name: &ObjectName,
    number: u64,
    clock: u64,
) -> Result<Reply, OutOfMemory>
    requires ready { CanStep pool.old }
    ensures { (settings : SettingsView) (zone : ℕ) (st : State) → IsReady settings zone pool.old st → number ≡ number_next st → clock ≡ st.clock
        → Performs settings zone st (HeadRead zone container name.now) result pool.new }
{
    match read_head(alloc, pool, container, name, number) {
        Ok(seen) => Ok(Reply::Head(seen, clock)),
        Err(fault) => Err(fault),
    }
}

pub(crate) fn head_write(
    alloc: Global,
    pool: &mut Pool,
    zone: u8,
    container: u64,
    name: &ObjectName,
    guard: Guard,
    new: &NewHead,
    when: &Conditions,
    number: u64,
    clock: u64,
) -> Result<Reply, OutOfMemory>
    requires ready { (settings : SettingsView) × (st : State) × IsReady settings zone pool.old st }
    requires zone_low { 1 ≤ zone }
    requires zone_high { zone ≤ 8 }
    ensures { (settings : SettingsView) (st : State) → IsReady settings zone pool.old st → number ≡ number_next st → clock ≡ st.clock
        → Performs settings zone st (HeadWrite zone container name.now guard new.now when.now) result pool.new }
{
    match write_head(
        alloc, pool, container, name, guard, new, when, zone, number, clock,
    ) {
        Ok(changed) => Ok(Reply::Changed(changed)),
        Err(fault) => fault_reply(fault),
    }
}

pub(crate) fn tail_make(
    alloc: Global,
    pool: &mut Pool,
    write: u64,
    part: PartNumber,
    bytes: &[u8],
) -> Result<Reply, OutOfMemory>
    requires ready { CanStep pool.old }
    ensures { (settings : SettingsView) (zone : ℕ) (st : State) → IsReady settings zone pool.old st
        → Performs settings zone st (TailMake zone write part bytes.now) result pool.new }
{
    match make_tail_at(alloc, pool, write, part, bytes) {
        Ok(()) => Ok(Reply::Done),
        Err(fault) => fault_reply(fault),
    }
}

pub(crate) fn tail_read(
    alloc: Global,
    pool: &mut Pool,
    write: u64,
    part: PartNumber,
    start: u64,
    count: u64,
    clock: u64,
) -> Result<Reply, OutOfMemory>
    requires ready { CanStep pool.old }
    ensures { (settings : SettingsView) (zone : ℕ) (st : State) → IsReady settings zone pool.old st → clock ≡ st.clock
        → Performs settings zone st (TailRead zone write part start count) result pool.new }
{
    match read_tail_at(alloc, pool, write, part, start, count, clock) {
        Ok(bytes) => Ok(Reply::Bytes(bytes)),
        Err(fault) => fault_reply(fault),
    }
}

pub(crate) fn announce_shard(
    alloc: Global,
    pool: &mut Pool,
    container: u64,
    instance: u64,
    shard: u32,
    bucket: &BucketName,
) -> Result<Reply, OutOfMemory>
    requires ready { CanStep pool.old }
    ensures { (settings : SettingsView) (zone : ℕ) (st : State) → IsReady settings zone pool.old st
        → Performs settings zone st (Announce zone container instance shard bucket.now) result pool.new }
{
    let bucket = bucket.clone()?;
    let what = LogWhat::Shard {
        container,
        instance,
        shard,
        bucket,
    };
    match announce(alloc, pool, &what) {
        Ok(position) => Ok(Reply::Position(position)),
        Err(fault) => Err(fault),
    }
}
