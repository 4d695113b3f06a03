//! The rows of accounts: beside the row of each container an empty one, whose key is the owner and the
//! name.
ghost use Rattle.std.specs.Prelude.{◌≡◌, ◌^◌, ◌<◌, ℕ, List, Bool, false, true, IfOk, OnErr, OnOk, length, option_map};
ghost use Rattle.object_pool.specs.Places.{object_of, rows_of};
ghost use Rattle.object_words.specs.Names.{at};
ghost use Rattle.object_words.specs.Roots.{Root as RootOf};
ghost use Rattle.class_words.specs.Works.{Works};
ghost use Rattle.cls_record.specs.RootObjects.{IsBucketName, IsRoot, IsRootWith, account_front, account_key, with_owner};

use crate::OutOfMemory;
use crate::kept::kept_owner;
use crate::reader::put_text;
use object_pool::Place;
use rgw_types::Bytes;
use std::alloc::Global;

/// The byte that the keys of account rows begin with. No text begins so.
pub(crate) const ACCOUNTS: u8 = 255;

/// What the keys of an account's rows begin with.
pub(crate) fn account_front(alloc: Global, account: &str) -> Result<Bytes, OutOfMemory>
    ensures form { IfOk result (λ front. front ≡ account_front account.now) }
    ensures fits { length account.now < 2 ^ 64 }
{
    let mut front = Bytes::new(alloc);
    front.extend(&[ACCOUNTS])?;
    put_text(&mut front, account)?;
    Ok(front)
}

/// The key of the account row of a container.
pub(crate) fn account_key(alloc: Global, account: &str, name: &[u8]) -> Result<Bytes, OutOfMemory>
    ensures form { IfOk result (λ key. key ≡ account_key account.now name.now) }
    ensures fits { length account.now < 2 ^ 64 }
{
    let mut key = account_front(alloc, account)?;
    key.extend(name)?;
    Ok(key)
}

/// The key of the account row of the container that is kept under a name, if there is one.
pub(crate) fn kept_account(
    alloc: Global,
    root: &Place<'_>,
    name: &[u8],
) -> Result<Option<Bytes>, OutOfMemory>
    requires root { (r : RootOf) × IsRoot (object_of root.now) r }
    requires name { IsBucketName name.now }
    ensures { IfOk result (λ found. (r : RootOf) → IsRoot (object_of root.now) r
        → found ≡ option_map (λ b. account_key b.owner name.now) (at r.buckets name.now)) }
{
    match kept_owner(root, name) {
        None => Ok(None),
        Some(owner) => Ok(Some(account_key(alloc, owner, name)?)),
    }
}

/// Puts an account row.
pub(crate) fn put_account(
    alloc: Global,
    root: &mut Place<'_>,
    key: &[u8],
) -> Result<(), OutOfMemory>
    ensures works { Works root.old root.new }
    ensures ok { OnOk result ((r : RootOf) (owns : List ℕ → List ℕ → Bool) (account name : List ℕ) → IsRootWith (object_of root.old) r owns
        → length account < 2 ^ 64 → key.now ≡ account_key account name → IsRootWith (object_of root.new) r (with_owner owns account name true)) }
    ensures err { OnErr result ((r : RootOf) (owns : List ℕ → List ℕ → Bool) → IsRootWith (object_of root.old) r owns → IsRootWith (object_of root.new) r owns) }
    ensures spare { (rows_of root.new).spare ≡ (rows_of root.old).spare }
{
    let copy = Bytes::from_slice(alloc, key)?;
    match root.put_row(alloc, copy, Bytes::new(alloc)) {
        Ok(()) => Ok(()),
        Err(_) => Err(OutOfMemory),
    }
}

/// Takes an account row away. Takes no memory.
pub(crate) fn take_account(root: &mut Place<'_>, key: &[u8])
    ensures works { Works root.old root.new }
    ensures root { (r : RootOf) (owns : List ℕ → List ℕ → Bool) (account name : List ℕ) → IsRootWith (object_of root.old) r owns
        → length account < 2 ^ 64 → key.now ≡ account_key account name → IsRootWith (object_of root.new) r (with_owner owns account name false) }
    ensures spare { (rows_of root.new).spare ≡ (rows_of root.old).spare }
{
    root.take_row(key);
}
