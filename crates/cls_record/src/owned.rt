//! The rows of containers, each with its account row beside it.
ghost use Rattle.std.specs.Prelude.{◌≡◌, ◌^◌, ◌<◌, ℕ, List, Bool, false, true, OnErr, OnOk, Some, None, length};
ghost use Rattle.object_pool.specs.Places.{object_of, rows_of};
ghost use Rattle.object_words.specs.declared.bucket.Bucket.{Bucket as BucketOf};
ghost use Rattle.object_words.specs.Roots.{Root as RootOf};
ghost use Rattle.class_words.specs.Works.{Works};
ghost use Rattle.cls_record.specs.BucketRows.{IsBucket, bucket_bytes};
ghost use Rattle.cls_record.specs.RootObjects.{IsBucketName, IsRoot, IsRootWith, account_key, with_owner, with_row};

use crate::OutOfMemory;
use crate::accounts::{account_key, kept_account, put_account, take_account};
use object_pool::Place;
use rgw_types::Bytes;
use std::alloc::Global;

/// Puts the bytes of a row of this owner under a name, and sees to the account row: a new one where there
/// was none or that of another owner, which is taken away.
pub(crate) fn put_owned(
    alloc: Global,
    root: &mut Place<'_>,
    name: &[u8],
    owner: &str,
    row: Bytes,
) -> Result<(), OutOfMemory>
    requires root { (r : RootOf) × IsRoot (object_of root.old) r }
    requires name { IsBucketName name.now }
    ensures works { Works root.old root.new }
    ensures ok { OnOk result ((r : RootOf) (b : BucketOf) → IsRoot (object_of root.old) r → IsBucket b → row ≡ bucket_bytes b → owner.now ≡ b.owner
        → IsRoot (object_of root.new) (with_row r name.now (Some b))) }
    ensures err { OnErr result ((r : RootOf) → IsRoot (object_of root.old) r → IsRoot (object_of root.new) r) }
    ensures spare { (rows_of root.new).spare ≡ (rows_of root.old).spare }
{
    let account = account_key(alloc, owner, name)?;
    let Some(kept) = kept_account(alloc, root, name)? else {
        return put_beside(alloc, root, name, row, account.as_slice());
    };
    if kept.as_slice() == account.as_slice() {
        return put_row(alloc, root, name, row);
    }
    put_beside(alloc, root, name, row, account.as_slice())?;
    take_account(root, kept.as_slice());
    Ok(())
}

/// Puts an account row and then the row that it stands beside, or neither.
fn put_beside(
    alloc: Global,
    root: &mut Place<'_>,
    name: &[u8],
    row: Bytes,
    account: &[u8],
) -> Result<(), OutOfMemory>
    requires { IsBucketName name.now }
    ensures works { Works root.old root.new }
    ensures ok { OnOk result ((r : RootOf) (owns : List ℕ → List ℕ → Bool) (b : BucketOf) (owner : List ℕ) → IsRootWith (object_of root.old) r owns
        → IsBucket b → row ≡ bucket_bytes b → length owner < 2 ^ 64 → account.now ≡ account_key owner name.now
        → IsRootWith (object_of root.new) (with_row r name.now (Some b)) (with_owner owns owner name.now true)) }
    ensures err { OnErr result ((r : RootOf) (owns : List ℕ → List ℕ → Bool) (owner : List ℕ) → IsRootWith (object_of root.old) r owns
        → length owner < 2 ^ 64 → account.now ≡ account_key owner name.now → owns owner name.now ≡ false → IsRootWith (object_of root.new) r owns) }
    ensures spare { (rows_of root.new).spare ≡ (rows_of root.old).spare }
{
    put_account(alloc, root, account)?;
    let Ok(()) = put_row(alloc, root, name, row) else {
        take_account(root, account);
        return Err(OutOfMemory);
    };
    Ok(())
}

/// Puts the bytes of a row under a name.
fn put_row(alloc: Global, root: &mut Place<'_>, name: &[u8], row: Bytes) -> Result<(), OutOfMemory>
    requires { IsBucketName name.now }
    ensures works { Works root.old root.new }
    ensures ok { OnOk result ((r : RootOf) (owns : List ℕ → List ℕ → Bool) (b : BucketOf) → IsRootWith (object_of root.old) r owns → IsBucket b
        → row ≡ bucket_bytes b → IsRootWith (object_of root.new) (with_row r name.now (Some b)) owns) }
    ensures err { OnErr result ((r : RootOf) (owns : List ℕ → List ℕ → Bool) → IsRootWith (object_of root.old) r owns → IsRootWith (object_of root.new) r owns) }
    ensures spare { (rows_of root.new).spare ≡ (rows_of root.old).spare }
{
    let key = Bytes::from_slice(alloc, name)?;
    match root.put_row(alloc, key, row) {
        Ok(()) => Ok(()),
        Err(_) => Err(OutOfMemory),
    }
}

/// Takes the row under a name away with its account row, if there is one.
pub(crate) fn take_owned(
    alloc: Global,
    root: &mut Place<'_>,
    name: &[u8],
) -> Result<(), OutOfMemory>
    requires root { (r : RootOf) × IsRoot (object_of root.old) r }
    requires name { IsBucketName name.now }
    ensures works { Works root.old root.new }
    ensures ok { OnOk result ((r : RootOf) → IsRoot (object_of root.old) r → IsRoot (object_of root.new) (with_row r name.now None)) }
    ensures err { OnErr result ((r : RootOf) → IsRoot (object_of root.old) r → IsRoot (object_of root.new) r) }
    ensures spare { (rows_of root.new).spare ≡ (rows_of root.old).spare }
{
    let kept = kept_account(alloc, root, name)?;
    take_row(root, name);
    if let Some(kept) = kept {
        take_account(root, kept.as_slice());
    }
    Ok(())
}

/// Takes the row under a name away, if there is one. Takes no memory.
fn take_row(root: &mut Place<'_>, name: &[u8])
    requires { IsBucketName name.now }
    ensures works { Works root.old root.new }
    ensures root { (r : RootOf) (owns : List ℕ → List ℕ → Bool) → IsRootWith (object_of root.old) r owns
        → IsRootWith (object_of root.new) (with_row r name.now None) owns }
    ensures spare { (rows_of root.new).spare ≡ (rows_of root.old).spare }
{
    root.take_row(name);
}
