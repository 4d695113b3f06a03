ghost use Rattle.std.specs.Prelude.{◌≡◌, ◌^◌, ◌<◌, ℕ, IfOk, OnErr, OnOk, Some, None, option_map, unwrap_or, if◌then◌else◌};
ghost use Rattle.object_pool.specs.Places.{object_of, rows_of};
ghost use Rattle.object_words.specs.declared.bucket.Bucket.{Bucket as BucketOf};
ghost use Rattle.object_words.specs.Answers.{Answers};
ghost use Rattle.object_words.specs.Names.{at};
ghost use Rattle.object_words.specs.Roots.{Root as RootOf, swap_refusal, swapped};
ghost use Rattle.class_words.specs.Works.{Works};
ghost use Rattle.cls_record.specs.BucketRows.{IsBucket, bucket_bytes};
ghost use Rattle.cls_record.specs.Changes.{LeavesRoot, MayLog};
ghost use Rattle.cls_record.specs.RootObjects.{IsBucketName, IsRoot, renewed, with_log_row, with_row};

use crate::OutOfMemory;
use crate::codec::{decode_bucket, row_with, shared_bytes};
use crate::kept::{kept_shared, kept_version};
use crate::log_rows::{add_log_row, ready_log};
use crate::owned::{put_owned, take_owned};
use object_pool::Place;
use object_words::{Bucket, BucketName, ClassFault, Why};
use rgw_types::Bytes;
use std::alloc::Global;

/// The row of a container, if it has one.
pub fn read(
    alloc: Global,
    root: &Place<'_>,
    name: &BucketName,
) -> Result<Option<Bucket>, OutOfMemory>
    ensures { IfOk result (λ found. (r : RootOf) → IsRoot (object_of root.now) r → found ≡ at r.buckets name.now) }
{
    match root.row(key_of(name)) {
        None => Ok(None),
        Some(row) => decode_bucket(alloc, row),
    }
}

/// The key of the row of a container.
fn key_of(name: &BucketName) -> &[u8]
    ensures key { result.now ≡ name.now }
    ensures named { IsBucketName result.now }
{
    name.as_text().as_str().as_bytes()
}

/// Swaps the row of a container for a new one, or takes it away, where the kept one has the expected
/// version; 0 where none is expected. The new row's version is `number`, the number of the event. In the
/// master zone the shared part gets this number where it is new or changes, and the swap is logged
/// where that is so or a row is taken away; other zones take over the number of the new row and log
/// nothing. Refused, or out of memory, it changes nothing.
pub fn swap(
    alloc: Global,
    root: &mut Place<'_>,
    name: &BucketName,
    expected: u64,
    new: Option<&Bucket>,
    master: bool,
    number: u64,
) -> Result<(), ClassFault>
    requires { MayLog root.old }
    ensures works { Works root.old root.new }
    ensures answers { (r : RootOf) → IsRoot (object_of root.old) r → r.log.last < 2 ^ 63
        → Answers result (swap_refusal r name.now expected) (λ _. Unit {0}) (IsRoot (object_of root.new)) r
        (swapped r name.now expected (option_map (λ b. b.now) new.entry) master number) }
{
    let version = kept_version(root, key_of(name));
    if version != expected {
        return Err(ClassFault::No(Why::Raced { version }));
    }
    match renew(alloc, root, name, new, master, number) {
        Ok(()) => Ok(()),
        Err(_) => Err(ClassFault::OutOfMemory),
    }
}

/// Puts a row in the place of the one that is kept, or takes that away.
fn renew(
    alloc: Global,
    root: &mut Place<'_>,
    name: &BucketName,
    new: Option<&Bucket>,
    master: bool,
    number: u64,
) -> Result<(), OutOfMemory>
    requires { MayLog root.old }
    ensures { LeavesRoot root.old root.new result (λ r. renewed r name.now (option_map (λ b. b.now) new.entry) master number) }
{
    match new {
        Some(new) => put_bucket(alloc, root, name, new, master, number),
        None => take_bucket(alloc, root, name, master),
    }
}

/// Puts a row in the place of the one that is kept, or of none.
fn put_bucket(
    alloc: Global,
    root: &mut Place<'_>,
    name: &BucketName,
    new: &Bucket,
    master: bool,
    number: u64,
) -> Result<(), OutOfMemory>
    requires { MayLog root.old }
    ensures { LeavesRoot root.old root.new result (λ r. renewed r name.now (Some new.now) master number) }
{
    let key = key_of(name);
    let part = shared_bytes(alloc, new)?;
    let kept = kept_shared(root, key, part.as_slice());
    let shared = next_shared(kept, new.shared, master, number);
    let row = row_with(alloc, new, number, shared, part.as_slice())?;
    let owner = new.owner.as_str();
    if master && kept.is_none() {
        put_logged(alloc, root, name, owner, row)
    } else {
        put_owned(alloc, root, key, owner, row)
    }
}

/// The number under which the shared part of a new row is known.
fn next_shared(kept: Option<u64>, new: u64, master: bool, number: u64) -> u64
    ensures { result ≡ (if master then unwrap_or kept number else new) }
{
    if master { kept.unwrap_or(number) } else { new }
}

/// Puts the bytes of a row of this owner under a name, and logs it.
fn put_logged(
    alloc: Global,
    root: &mut Place<'_>,
    name: &BucketName,
    owner: &str,
    row: Bytes,
) -> Result<(), OutOfMemory>
    requires { (r : RootOf) × (b : BucketOf) × IsRoot (object_of root.old) r × (r.log.last < 2 ^ 63) × IsBucket b × (row ≡ bucket_bytes b)
        × (owner.now ≡ b.owner) }
    ensures works { Works root.old root.new }
    ensures ok { OnOk result ((r : RootOf) (b : BucketOf) → IsRoot (object_of root.old) r → r.log.last < 2 ^ 63 → IsBucket b → row ≡ bucket_bytes b
        → owner.now ≡ b.owner → IsRoot (object_of root.new) (with_log_row (with_row r name.now (Some b)) name.now)) }
    ensures err { OnErr result ((r : RootOf) → IsRoot (object_of root.old) r → IsRoot (object_of root.new) r) }
{
    let next = ready_log(alloc, root)?;
    put_owned(alloc, root, key_of(name), owner, row)?;
    add_log_row(root, next, name);
    Ok(())
}

/// Takes the row under a name away, if there is one.
fn take_bucket(
    alloc: Global,
    root: &mut Place<'_>,
    name: &BucketName,
    master: bool,
) -> Result<(), OutOfMemory>
    requires { MayLog root.old }
    ensures works { Works root.old root.new }
    ensures ok { OnOk result ((number : ℕ) (r : RootOf) → IsRoot (object_of root.old) r → r.log.last < 2 ^ 63
        → IsRoot (object_of root.new) (renewed r name.now None master number)) }
    ensures err { OnErr result ((r : RootOf) → IsRoot (object_of root.old) r → IsRoot (object_of root.new) r) }
{
    let key = key_of(name);
    if master && root.row(key).is_some() {
        let next = ready_log(alloc, root)?;
        take_owned(alloc, root, key)?;
        add_log_row(root, next, name);
    } else {
        take_owned(alloc, root, key)?;
    }
    Ok(())
}
