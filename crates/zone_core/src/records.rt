ghost use Rattle.std.specs.Prelude.{◌≡◌, ◌<◌, ◌^◌, ℕ, IfOk, MatchResult, option_map};
ghost use Rattle.object_words.specs.declared.log.LogWhat.{LogWhat as WhatOf};
ghost use Rattle.object_words.specs.Answers.{Answers};
ghost use Rattle.object_words.specs.Logs.{logged};
ghost use Rattle.object_words.specs.Names.{at};
ghost use Rattle.object_words.specs.Numbers.{next};
ghost use Rattle.object_words.specs.Pages.{account_names, bucket_names};
ghost use Rattle.object_words.specs.Roots.{swap_refusal, swapped};
ghost use Rattle.realm_model.specs.Settings.{SettingsView};
ghost use Rattle.realm_model.specs.States.{State, at_changes, at_root, touched};
ghost use Rattle.zone_core.specs.Stands.{Stands};

use cls_record::{account_page, bucket_page};
use object_pool::{OutOfMemory, Pool};
use object_words::{Bucket, BucketName, BucketNames, ClassFault, LogWhat};
use rgw_types::{Key, Text};
use std::alloc::{AllocError, Global};

/// The row of a container.
pub(crate) fn read_bucket(
    alloc: Global,
    pool: &mut Pool,
    name: &BucketName,
) -> Result<Option<Bucket>, AllocError>
    requires { (settings : SettingsView) × (zone : ℕ) × (st : State) × Stands settings zone pool.old st }
    ensures found { (settings : SettingsView) (zone : ℕ) (st : State) → Stands settings zone pool.old st
        → IfOk result (λ found. found ≡ at (st.root zone).buckets name.now) }
    ensures stays { (settings : SettingsView) (zone : ℕ) (st : State) → Stands settings zone pool.old st → Stands settings zone pool.new st }
{
    let Some(root) = pool.find(&Key::Root) else {
        return Ok(None);
    };
    cls_record::read(alloc, &root, name)
}

/// The first names above `after` of containers of this account, by rising bytes: at most `limit`.
pub(crate) fn account_page_at(
    alloc: Global,
    pool: &mut Pool,
    account: &Text,
    after: &Text,
    limit: u32,
) -> Result<BucketNames, AllocError>
    requires { (settings : SettingsView) × (zone : ℕ) × (st : State) × Stands settings zone pool.old st }
    ensures found { (settings : SettingsView) (zone : ℕ) (st : State) → Stands settings zone pool.old st
        → IfOk result (λ names. names ≡ account_names (st.root zone) account.now after.now limit) }
    ensures stays { (settings : SettingsView) (zone : ℕ) (st : State) → Stands settings zone pool.old st → Stands settings zone pool.new st }
{
    let Some(root) = pool.find(&Key::Root) else {
        return Ok(BucketNames::new(alloc));
    };
    account_page(alloc, &root, account, after, limit)
}

/// The first names above `after` of containers, by rising bytes: at most `limit`.
pub(crate) fn bucket_page_at(
    alloc: Global,
    pool: &mut Pool,
    after: &Text,
    limit: u32,
) -> Result<BucketNames, AllocError>
    requires { (settings : SettingsView) × (zone : ℕ) × (st : State) × Stands settings zone pool.old st }
    ensures found { (settings : SettingsView) (zone : ℕ) (st : State) → Stands settings zone pool.old st
        → IfOk result (λ names. names ≡ bucket_names (st.root zone) after.now limit) }
    ensures stays { (settings : SettingsView) (zone : ℕ) (st : State) → Stands settings zone pool.old st → Stands settings zone pool.new st }
{
    let Some(root) = pool.find(&Key::Root) else {
        return Ok(BucketNames::new(alloc));
    };
    bucket_page(alloc, &root, after, limit)
}

/// Swaps the row of a container.
pub(crate) fn swap_bucket(
    alloc: Global,
    pool: &mut Pool,
    name: &BucketName,
    expected: u64,
    new: Option<&Bucket>,
    master: bool,
    number: u64,
) -> Result<(), ClassFault>
    requires stands { (settings : SettingsView) × (zone : ℕ) × (st : State) × Stands settings zone pool.old st × ((st.root zone).log.last < 2 ^ 63) }
    ensures { (settings : SettingsView) (zone : ℕ) (st : State) → Stands settings zone pool.old st → (st.root zone).log.last < 2 ^ 63
        → Answers result (swap_refusal (st.root zone) name.now expected) (λ _. Unit {0})
        (Stands settings zone pool.new) st (touched settings st (at_root zone (swapped (st.root zone) name.now expected (option_map (λ b. b.now) new.entry) master number))) }
{
    let Ok(mut root) = pool.place(alloc, &Key::Root) else {
        return Err(ClassFault::OutOfMemory);
    };
    cls_record::swap(alloc, &mut root, name, expected, new, master, number)
}

/// Adds a row to the zone's data log, and answers its position.
pub(crate) fn announce(alloc: Global, pool: &mut Pool, what: &LogWhat) -> Result<u64, OutOfMemory>
    requires stands { (settings : SettingsView) × (zone : ℕ) × (st : State) × Stands settings zone pool.old st × ((st.changes zone).last < 2 ^ 63) }
    ensures { (settings : SettingsView) (zone : ℕ) (st : State) → Stands settings zone pool.old st → (st.changes zone).last < 2 ^ 63
        → MatchResult result
        (λ position. (position ≡ next (st.changes zone).last) × Stands settings zone pool.new (touched settings st (at_changes zone (logged (st.changes zone) what.now))))
        (λ _. Stands settings zone pool.new st) }
{
    let Ok(mut log) = pool.place(alloc, &Key::Changes) else {
        return Err(OutOfMemory);
    };
    cls_log::add(alloc, &mut log, what)
}
