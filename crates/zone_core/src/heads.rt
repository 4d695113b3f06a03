ghost use Rattle.std.specs.Prelude.{◌≡◌, ℕ, ◌≤◌, IfOk, List, Some};
ghost use Rattle.object_words.specs.Answers.{Answers, Replies};
ghost use Rattle.object_words.specs.HeadCalls.{change_of, seen, write_refusal, written};
ghost use Rattle.object_words.specs.Keys.{head_key, tail_key};
ghost use Rattle.object_words.specs.Tails.{bytes_at, read_refusal, tail_made, tail_refusal};
ghost use Rattle.realm_model.specs.Settings.{SettingsView};
ghost use Rattle.realm_model.specs.States.{State, at_head, at_tail, touched};
ghost use Rattle.zone_core.specs.Stands.{Stands};

use cls_head::{make_tail, read, read_tail, write};
use object_pool::{OutOfMemory, Pool};
use object_words::{
    Changed, ClassFault, Conditions, Guard, HeadSeen, NewHead, ObjectName, SeenSlot, Why,
};
use rgw_types::{Bytes, Key, PartNumber};
use std::alloc::Global;

/// What an event of this number sees of the head of a name.
pub(crate) fn read_head(
    alloc: Global,
    pool: &mut Pool,
    container: u64,
    name: &ObjectName,
    number: u64,
) -> Result<HeadSeen, OutOfMemory>
    requires { (settings : SettingsView) × (zone : ℕ) × (st : State) × Stands settings zone pool.old st }
    ensures found { (settings : SettingsView) (zone : ℕ) (st : State) → Stands settings zone pool.old st
        → IfOk result (λ found. found ≡ seen (st.heads zone (head_key container name.now)) number) }
    ensures stays { (settings : SettingsView) (zone : ℕ) (st : State) → Stands settings zone pool.old st → Stands settings zone pool.new st }
{
    let name = name.as_text().clone()?;
    let key = Key::Head { container, name };
    let Some(head) = pool.find(&key) else {
        return Ok(HeadSeen {
            version: number,
            slot: SeenSlot::Nothing,
        });
    };
    read(alloc, &head, number)
}

/// Gives the name of a head's key new content.
fn write_at(
    alloc: Global,
    pool: &mut Pool,
    key: &Key,
    guard: Guard,
    new: &NewHead,
    when: &Conditions,
    zone: u8,
    number: u64,
    clock: u64,
) -> Result<Changed, ClassFault>
    requires stands { (settings : SettingsView) × (st : State) × (container : ℕ) × (name : List ℕ) × Stands settings zone pool.old st × (key.now ≡ head_key container name) }
    requires zone_low { 1 ≤ zone }
    requires zone_high { zone ≤ 8 }
    ensures { (settings : SettingsView) (st : State) (container : ℕ) (name : List ℕ) → Stands settings zone pool.old st → key.now ≡ head_key container name
        → let after = written (st.heads zone key.now) guard new.now when.now zone number clock (st.free zone) settings.frame in
        Answers result (write_refusal (st.heads zone key.now) guard new.now when.now clock (st.free zone) settings.frame)
        (λ changed. changed ≡ change_of (st.heads zone key.now) after) (Stands settings zone pool.new) st (touched settings st (at_head zone key.now after)) }
{
    let Ok(mut head) = pool.place(alloc, key) else {
        return Err(ClassFault::OutOfMemory);
    };
    write(alloc, &mut head, guard, new, when, zone, number, clock)
}

/// Makes the tail of a key.
fn make_at(alloc: Global, pool: &mut Pool, key: &Key, bytes: &[u8]) -> Result<(), ClassFault>
    requires stands { (settings : SettingsView) × (zone : ℕ) × (st : State) × (write : ℕ) × (part : ℕ) × Stands settings zone pool.old st × (key.now ≡ tail_key write part) }
    ensures { (settings : SettingsView) (zone : ℕ) (st : State) (write part : ℕ) → Stands settings zone pool.old st → key.now ≡ tail_key write part
        → Answers result (tail_refusal bytes.now (st.free zone) settings.frame) (λ _. Unit {0})
        (Stands settings zone pool.new) st (touched settings st (at_tail zone key.now (tail_made (st.tails zone key.now) bytes.now (st.free zone) settings.frame))) }
{
    let Ok(mut tail) = pool.place(alloc, key) else {
        return Err(ClassFault::OutOfMemory);
    };
    match make_tail(&mut tail, bytes) {
        Ok(()) => Ok(()),
        Err(why) => Err(ClassFault::No(why)),
    }
}

/// Makes a tail of a write.
pub(crate) fn make_tail_at(
    alloc: Global,
    pool: &mut Pool,
    write: u64,
    part: PartNumber,
    bytes: &[u8],
) -> Result<(), ClassFault>
    requires stands { (settings : SettingsView) × (zone : ℕ) × (st : State) × Stands settings zone pool.old st }
    ensures { (settings : SettingsView) (zone : ℕ) (st : State) → Stands settings zone pool.old st
        → let key = tail_key write part in
        Answers result (tail_refusal bytes.now (st.free zone) settings.frame) (λ _. Unit {0})
        (Stands settings zone pool.new) st (touched settings st (at_tail zone key (tail_made (st.tails zone key) bytes.now (st.free zone) settings.frame))) }
{
    let key = Key::Tail { write, part };
    make_at(alloc, pool, &key, bytes)
}

/// Gives a name new content.
pub(crate) fn write_head(
    alloc: Global,
    pool: &mut Pool,
    container: u64,
    name: &ObjectName,
    guard: Guard,
    new: &NewHead,
    when: &Conditions,
    zone: u8,
    number: u64,
    clock: u64,
) -> Result<Changed, ClassFault>
    requires stands { (settings : SettingsView) × (st : State) × Stands settings zone pool.old st }
    requires zone_low { 1 ≤ zone }
    requires zone_high { zone ≤ 8 }
    ensures { (settings : SettingsView) (st : State) → Stands settings zone pool.old st
        → let key = head_key container name.now in
        let after = written (st.heads zone key) guard new.now when.now zone number clock (st.free zone) settings.frame in
        Answers result (write_refusal (st.heads zone key) guard new.now when.now clock (st.free zone) settings.frame)
        (λ changed. changed ≡ change_of (st.heads zone key) after) (Stands settings zone pool.new) st (touched settings st (at_head zone key after)) }
{
    let name = name.as_text().clone()?;
    let key = Key::Head { container, name };
    write_at(alloc, pool, &key, guard, new, when, zone, number, clock)
}

/// What is there of a range of a tail.
pub(crate) fn read_tail_at(
    alloc: Global,
    pool: &mut Pool,
    write: u64,
    part: PartNumber,
    start: u64,
    count: u64,
    clock: u64,
) -> Result<Bytes, ClassFault>
    requires { (settings : SettingsView) × (zone : ℕ) × (st : State) × Stands settings zone pool.old st }
    ensures found { (settings : SettingsView) (zone : ℕ) (st : State) → Stands settings zone pool.old st
        → let tail = st.tails zone (tail_key write part) in
        Answers result (read_refusal tail clock) (λ bytes. bytes ≡ bytes_at tail start count) (Stands settings zone pool.new) st st }
{
    let key = Key::Tail { write, part };
    let Some(tail) = pool.find(&key) else {
        return Err(ClassFault::No(Why::Gone { clock }));
    };
    read_tail(alloc, &tail, start, count, clock)
}
