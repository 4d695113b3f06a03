//! The names of containers, page by page.
ghost use Rattle.std.specs.Prelude.{◌≡◌, ◌++◌, ℕ, List, IfOk, length, map};
ghost use Rattle.std.specs.List.{AllByRecursion};
ghost use Rattle.std.specs.Ordering.{is_lt};
ghost use Rattle.omap_pages.specs.Rows.{key_cmp};
ghost use Rattle.object_pool.specs.Places.{object_of};
ghost use Rattle.object_words.specs.Pages.{account_names, bucket_names};
ghost use Rattle.object_words.specs.Roots.{Root as RootOf};
ghost use Rattle.cls_record.specs.Pages.{keys_below};
ghost use Rattle.cls_record.specs.RootObjects.{IsBucketName, IsRoot};

use crate::OutOfMemory;
use crate::accounts::{ACCOUNTS, account_key};
use class_words::{later_of, look_up};
use index_entry::log_key;
use object_pool::{Bytes, Place};
use object_words::{BucketName, BucketNames};
use rgw_types::Text;
use std::alloc::Global;

/// The first names above `after`, by rising bytes: at most `limit`.
pub fn bucket_page(
    alloc: Global,
    root: &Place<'_>,
    after: &Text,
    limit: u32,
) -> Result<BucketNames, OutOfMemory>
    requires { (r : RootOf) × IsRoot (object_of root.now) r }
    ensures { IfOk result (λ names. (r : RootOf) → IsRoot (object_of root.now) r → names ≡ bucket_names r after.now limit) }
{
    // The rows of the log come before all names, and those of accounts behind them.
    let last = log_key(u64::MAX);
    let start = later_of(after.as_bytes(), last.as_slice());
    look_up(root, start);
    let Ok(page) = root.page(alloc, start, limit) else {
        return Err(OutOfMemory);
    };
    names_below(alloc, page.rows.into_vec(), &[ACCOUNTS], 0)
}

/// The first names above `after`, by rising bytes, of containers of this account: at most `limit`.
pub fn account_page(
    alloc: Global,
    root: &Place<'_>,
    account: &Text,
    after: &Text,
    limit: u32,
) -> Result<BucketNames, OutOfMemory>
    requires { (r : RootOf) × IsRoot (object_of root.now) r }
    ensures { IfOk result (λ names. (r : RootOf) → IsRoot (object_of root.now) r → names ≡ account_names r account.now after.now limit) }
{
    let start = account_key(alloc, account.as_str(), after.as_bytes())?;
    // No name begins with this byte.
    let end = account_key(alloc, account.as_str(), &[ACCOUNTS])?;
    look_up(root, start.as_slice());
    let Ok(page) = root.page(alloc, start.as_slice(), limit) else {
        return Err(OutOfMemory);
    };
    names_below(alloc, page.rows.into_vec(), end.as_slice(), end.len() - 1)
}

/// The names behind the first `skip` bytes of the keys, up to a key that is not below the end.
fn names_below(
    alloc: Global,
    rows: Vec<(Bytes, Bytes)>,
    end: &[u8],
    skip: usize,
) -> Result<BucketNames, OutOfMemory>
    requires { (front : List ℕ) × (names : List (List ℕ)) × (length front ≡ skip) × AllByRecursion IsBucketName names
        × (keys_below end.now rows.items ≡ map (λ n. front ++ n) names) }
    ensures { IfOk result (λ found. (front : List ℕ) (names : List (List ℕ)) → length front ≡ skip → AllByRecursion IsBucketName names
        → keys_below end.now rows.items ≡ map (λ n. front ++ n) names → found ≡ names) }
{
    let mut names = Vec::with_capacity(alloc, rows.len())?;
    let mut rest = rows.into_iter();
    'rows: while let Some((key, _value)) = rest.next() {
        if !is_below(key.as_slice(), end) {
            return Ok(BucketNames::from_vec(names));
        }
        let name = name_behind(alloc, key.as_slice(), skip)?;
        names.push(name)?;
    }
    Ok(BucketNames::from_vec(names))
}

/// Whether a key is below another.
fn is_below(key: &[u8], end: &[u8]) -> bool
    ensures { result ≡ is_lt (key_cmp key.now end.now) }
{
    key.cmp(end).is_lt()
}

/// The name behind the first `skip` bytes of a key.
fn name_behind(alloc: Global, key: &[u8], skip: usize) -> Result<BucketName, OutOfMemory>
    requires { (front : List ℕ) × (name : List ℕ) × (length front ≡ skip) × IsBucketName name × (key.now ≡ front ++ name) }
    ensures { IfOk result (λ found. (front : List ℕ) (name : List ℕ) → length front ≡ skip → key.now ≡ front ++ name → found ≡ name) }
{
    let name = Text::from_utf8(alloc, &key[skip..])?;
    Ok(BucketName::new(name).unwrap())
}
