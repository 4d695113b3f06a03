ghost use Rattle.std.specs.Prelude.{◌≡◌, ℕ, true, IfSome, OnErr, OnOk};
ghost use Rattle.object_words.specs.Answers.{Answers, Replies};
ghost use Rattle.object_words.specs.HoldCalls.{close_refusal, closed, released, shut_down};
ghost use Rattle.object_words.specs.Keys.{is_shard_key};
ghost use Rattle.object_words.specs.Refusals.{fate_refusal, unless_refused};
ghost use Rattle.object_words.specs.ShardCalls.{cancelled, complete_refusal, completed, made, page_of, prepare_refusal, prepared, suggested};
ghost use Rattle.object_words.specs.Shards.{stats_of};
ghost use Rattle.object_words.specs.Tags.{guard_of, tag_of};
ghost use Rattle.realm_model.specs.Settings.{SettingsView};
ghost use Rattle.realm_model.specs.States.{State, at_shard, number_next, touched};
ghost use Rattle.realm_model.specs.Steps.{change_at, suggest_event_refusal};
ghost use Rattle.zone_core.specs.Bounds.{IsReady, IsShardReady};
ghost use Rattle.zone_core.specs.Calls.{AnswersAt, refusal_at};
ghost use Rattle.zone_core.specs.Stands.{Stands};

use cls_hold::{close, make, release, shut};
use cls_index::{cancel, complete, page, prepare, stats, suggest, untimely};
use object_pool::{OutOfMemory, Pool};
use object_words::{ClassFault, EntryPage, EntryRow, Guard, ObjectName, ShardStats, Why};
use rgw_types::Key;
use std::alloc::Global;

/// Makes the shard of a key, where there is none.
pub(crate) fn make_at(alloc: Global, pool: &mut Pool, key: &Key) -> Result<(), OutOfMemory>
    requires shard { is_shard_key key.now ≡ true }
    requires stands { (settings : SettingsView) × (zone : ℕ) × (st : State) × Stands settings zone pool.old st }
    ensures ok { (settings : SettingsView) (zone : ℕ) (st : State) → Stands settings zone pool.old st
        → OnOk result (Stands settings zone pool.new (touched settings st (at_shard zone key.now (made (st.shards zone key.now))))) }
    ensures err { (settings : SettingsView) (zone : ℕ) (st : State) → Stands settings zone pool.old st → OnErr result (Stands settings zone pool.new st) }
{
    let Ok(mut shard) = pool.place(alloc, key) else {
        return Err(OutOfMemory);
    };
    make(alloc, &mut shard)
}

/// Prepares a change of a name in the shard of a key.
pub(crate) fn prepare_at(
    alloc: Global,
    pool: &mut Pool,
    key: &Key,
    name: &ObjectName,
    number: u64,
    clock: u64,
    life: u64,
) -> Result<Guard, ClassFault>
    requires shard { is_shard_key key.now ≡ true }
    requires ready { (settings : SettingsView) × (zone : ℕ) × (st : State) × IsReady settings zone pool.old st × (number ≡ number_next st) }
    ensures { (settings : SettingsView) (zone : ℕ) (st : State) → IsReady settings zone pool.old st → number ≡ number_next st
        → let found = st.shards zone key.now in
        let tag = tag_of number clock life in
        Answers result (refusal_at found prepare_refusal) (λ guard. guard ≡ guard_of tag)
        (Stands settings zone pool.new) st (touched settings st (at_shard zone key.now (change_at found (λ s. prepared s name.now tag)))) }
{
    let Some(mut shard) = pool.find(key) else {
        return Err(ClassFault::No(Why::Closed));
    };
    prepare(alloc, &mut shard, name, number, clock, life)
}

/// Completes a change of a name in the shard of a key.
pub(crate) fn complete_at(
    pool: &mut Pool,
    key: &Key,
    name: &ObjectName,
    tag: u64,
    version: u64,
    row: &EntryRow,
) -> Result<(), Why>
    requires { IsShardReady key.now pool.old }
    ensures { AnswersAt key.now pool.old pool.new result (λ s. complete_refusal s name.now tag)
        (λ s. completed s name.now tag version row.now) }
{
    let Some(mut shard) = pool.find(key) else {
        return Err(Why::Closed);
    };
    complete(&mut shard, name, tag, version, row)
}

/// Cancels a change of a name in the shard of a key.
pub(crate) fn cancel_at(pool: &mut Pool, key: &Key, name: &ObjectName, tag: u64) -> Result<(), Why>
    requires { IsShardReady key.now pool.old }
    ensures { AnswersAt key.now pool.old pool.new result (λ s. complete_refusal s name.now tag)
        (λ s. cancelled s name.now tag) }
{
    let Some(mut shard) = pool.find(key) else {
        return Err(Why::Closed);
    };
    cancel(&mut shard, name, tag)
}

/// Suggests a row for the entry of a name in the shard of a key, where a tag of it was due when it was seen.
pub(crate) fn suggest_at(
    pool: &mut Pool,
    key: &Key,
    name: &ObjectName,
    revision: u64,
    seen: u64,
    version: u64,
    row: &EntryRow,
) -> Result<(), Why>
    requires { IsShardReady key.now pool.old }
    ensures { AnswersAt key.now pool.old pool.new result (λ s. suggest_event_refusal s name.now revision seen)
        (λ s.
        unless_refused (suggest_event_refusal s name.now revision seen) s (suggested s name.now revision seen version row.now)) }
{
    let Some(mut shard) = pool.find(key) else {
        return Err(Why::Closed);
    };
    if let Some(why) = untimely(&shard, name, revision, seen) {
        return Err(why);
    }
    suggest(&mut shard, name, revision, seen, version, row)
}

/// Entries of the shard of a key, above a text.
pub(crate) fn page_at(
    alloc: Global,
    pool: &mut Pool,
    key: &Key,
    after: &[u8],
    limit: u32,
    clock: u64,
) -> Result<EntryPage, ClassFault>
    requires shard { is_shard_key key.now ≡ true }
    requires stands { (settings : SettingsView) × (zone : ℕ) × (st : State) × Stands settings zone pool.old st }
    ensures { (settings : SettingsView) (zone : ℕ) (st : State) → Stands settings zone pool.old st
        → let found = st.shards zone key.now in
        Answers result (refusal_at found (λ s. fate_refusal s.fate)) (λ page. IfSome found (λ s. page ≡ page_of s after.now limit clock)) (Stands settings zone pool.new) st st }
{
    let Some(shard) = pool.find(key) else {
        return Err(ClassFault::No(Why::Closed));
    };
    page(alloc, &shard, after, limit, clock)
}

/// The header of the shard of a key.
pub(crate) fn stats_at(pool: &mut Pool, key: &Key) -> Result<ShardStats, Why>
    requires shard { is_shard_key key.now ≡ true }
    requires stands { (settings : SettingsView) × (zone : ℕ) × (st : State) × Stands settings zone pool.old st }
    ensures { (settings : SettingsView) (zone : ℕ) (st : State) → Stands settings zone pool.old st
        → let found = st.shards zone key.now in
        Replies result (refusal_at found (λ s. fate_refusal s.fate)) (λ stats. IfSome found (λ s. stats ≡ stats_of s)) (Stands settings zone pool.new) st }
{
    let Some(shard) = pool.find(key) else {
        return Err(Why::Closed);
    };
    stats(&shard)
}

/// Closes the shard of a key to changes under a number, where no entry stands in the way.
pub(crate) fn close_at(
    alloc: Global,
    pool: &mut Pool,
    key: &Key,
    id: u64,
    force: bool,
) -> Result<(), ClassFault>
    requires shard { is_shard_key key.now ≡ true }
    requires stands { (settings : SettingsView) × (zone : ℕ) × (st : State) × Stands settings zone pool.old st }
    ensures { (settings : SettingsView) (zone : ℕ) (st : State) → Stands settings zone pool.old st
        → let found = st.shards zone key.now in
        Answers result (refusal_at found (λ s. close_refusal s id force)) (λ _. Unit {0})
        (Stands settings zone pool.new) st (touched settings st (at_shard zone key.now (change_at found (λ s. closed s id force)))) }
{
    let Some(mut shard) = pool.find(key) else {
        return Err(ClassFault::No(Why::Closed));
    };
    close(alloc, &mut shard, id, force)
}

/// Takes a hold of the shard of a key away whose number is not above this one. Where there is no shard
/// nothing changes.
pub(crate) fn release_at(pool: &mut Pool, key: &Key, id: u64)
    requires shard { is_shard_key key.now ≡ true }
    requires stands { (settings : SettingsView) × (zone : ℕ) × (st : State) × Stands settings zone pool.old st }
    ensures { (settings : SettingsView) (zone : ℕ) (st : State) → Stands settings zone pool.old st
        → Stands settings zone pool.new (touched settings st (at_shard zone key.now (change_at (st.shards zone key.now) (λ s. released s id)))) }
{
    if let Some(mut shard) = pool.find(key) {
        release(&mut shard, id);
    }
}

/// Takes all entries of the shard of a key away, and closes it for good. Where there is no shard nothing
/// changes.
pub(crate) fn shut_at(pool: &mut Pool, key: &Key)
    requires shard { is_shard_key key.now ≡ true }
    requires stands { (settings : SettingsView) × (zone : ℕ) × (st : State) × Stands settings zone pool.old st }
    ensures { (settings : SettingsView) (zone : ℕ) (st : State) → Stands settings zone pool.old st
        → Stands settings zone pool.new (touched settings st (at_shard zone key.now (change_at (st.shards zone key.now) shut_down))) }
{
    if let Some(mut shard) = pool.find(key) {
        shut(&mut shard);
    }
}
