ghost use Rattle.std.specs.Prelude.{◌≡◌, ◌≤◌};
ghost use Rattle.realm_model.specs.Ops.{zone_of};
ghost use Rattle.realm_model.specs.States.{State, number_next};
ghost use Rattle.zone_core.specs.Bounds.{IsReady};
ghost use Rattle.zone_core.specs.Calls.{Performs};

use crate::steps;
use object_pool::{OutOfMemory, Pool};
use realm_model::{Op, Reply, Settings};
use std::alloc::Global;

/// One operation on an object of its zone, whose pool this is. It is the event of this number at this
/// clock: the reply and what becomes of the object are those of the model's step, for each state that
/// the pool has. A refusal is a reply. For want of memory nothing changes.
pub fn perform(
    alloc: Global,
    pool: &mut Pool,
    settings: &Settings,
    number: u64,
    clock: u64,
    op: &Op,
) -> Result<Reply, OutOfMemory>
    requires ready { (st : State) × IsReady settings.now (zone_of op.now) pool.old st × (number ≡ number_next st) }
    requires zone_low { 1 ≤ zone_of op.now }
    requires zone_high { zone_of op.now ≤ 8 }
    ensures { (st : State) → IsReady settings.now (zone_of op.now) pool.old st → number ≡ number_next st → clock ≡ st.clock
        → Performs settings.now (zone_of op.now) st op.now result pool.new }
{
    match op {
        Op::BucketRead { name, .. } => steps::bucket_read(alloc, pool, name),
        Op::BucketSwap {
            zone,
            name,
            expected,
            new,
        } => steps::bucket_swap(alloc, pool, *zone, name, *expected, new, number),
        Op::AccountPage {
            account,
            after,
            limit,
            ..
        } => steps::account_page(alloc, pool, account, after, *limit),
        Op::BucketPage { after, limit, .. } => steps::bucket_page(alloc, pool, after, *limit),
        Op::ShardMake { key, .. } => steps::shard_make(alloc, pool, *key),
        Op::Prepare { key, name, .. } => steps::prepare(
            alloc, pool, settings, *key, name, number, clock,
        ),
        Op::Complete {
            key,
            name,
            tag,
            version,
            row,
            ..
        } => steps::complete(pool, *key, name, *tag, *version, row),
        Op::Cancel { key, name, tag, .. } => steps::cancel(pool, *key, name, *tag),
        Op::Page {
            key,
            after,
            limit,
            ..
        } => steps::page(alloc, pool, *key, after, *limit, clock),
        Op::Suggest {
            key,
            name,
            revision,
            seen,
            version,
            row,
            ..
        } => { steps::suggest(pool, *key, name, *revision, *seen, *version, row) }
        Op::Stats { key, .. } => steps::stats(pool, *key),
        Op::CloseShard { key, id, force, .. } => {
            steps::close_shard(alloc, pool, *key, *id, *force)
        }
        Op::Release { key, id, .. } => steps::release(pool, *key, *id),
        Op::Shut { key, .. } => steps::shut(pool, *key),
        Op::HeadRead {
            container,
            name,
            ..
        } => steps::head_read(alloc, pool, *container, name, number, clock),
        Op::HeadWrite {
            zone,
            container,
            name,
            guard,
            new,
            when,
        } => {
            steps::head_write(
                alloc, pool, *zone, *container, name, *guard, new, when, number, clock,
            )
        }
        Op::TailMake {
            write,
            part,
            bytes,
            ..
        } => steps::tail_make(alloc, pool, *write, *part, bytes.as_slice()),
        Op::TailRead {
            write,
            part,
            start,
            count,
            ..
        } => steps::tail_read(alloc, pool, *write, *part, *start, *count, clock),
        Op::Announce {
            container,
            instance,
            shard,
            bucket,
            ..
        } => { steps::announce_shard(alloc, pool, *container, *instance, *shard, bucket) }
    }
}
