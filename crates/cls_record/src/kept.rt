//! What a row that is kept says, read where it stands.
ghost use Rattle.std.specs.Prelude.{◌≡◌, Some, option_map};
ghost use Rattle.object_pool.specs.Places.{object_of};
ghost use Rattle.object_words.specs.declared.bucket.Bucket.{Bucket as BucketOf};
ghost use Rattle.object_words.specs.Names.{at};
ghost use Rattle.object_words.specs.Roots.{Root as RootOf, version_of};
ghost use Rattle.cls_record.specs.BucketRows.{IsBucket, IsShared, bucket_bytes, shared_bytes};
ghost use Rattle.cls_record.specs.RootObjects.{IsBucketName, IsRoot, same_shared};

use crate::codec::OWN_LEN;
use crate::reader::{Reader, number_in};
use object_pool::Place;

/// The version of the row that is kept under a name; 0 where there is none.
pub(crate) fn kept_version(root: &Place<'_>, name: &[u8]) -> u64
    requires root { (r : RootOf) × IsRoot (object_of root.now) r }
    requires name { IsBucketName name.now }
    ensures { (r : RootOf) → IsRoot (object_of root.now) r → result ≡ version_of (at r.buckets name.now) }
{
    match root.row(name) {
        None => 0,
        Some(row) => version_in(row),
    }
}

/// The version of a row.
fn version_in(row: &[u8]) -> u64
    requires { (b : BucketOf) × IsBucket b × (row.now ≡ bucket_bytes b) }
    ensures { (b : BucketOf) → IsBucket b → row.now ≡ bucket_bytes b → result ≡ b.version }
{
    number_in(&row[2..10])
}

/// The number of the shared part of the row that is kept under a name, where these are the bytes of that
/// part.
pub(crate) fn kept_shared(root: &Place<'_>, name: &[u8], part: &[u8]) -> Option<u64>
    requires root { (r : RootOf) × IsRoot (object_of root.now) r }
    requires name { IsBucketName name.now }
    ensures { (r : RootOf) (b : BucketOf) → IsRoot (object_of root.now) r → IsShared b → part.now ≡ shared_bytes b
        → result ≡ same_shared (at r.buckets name.now) b }
{
    match root.row(name) {
        None => None,
        Some(row) => shared_in(row, part),
    }
}

/// The number of a row's shared part, where these are the bytes of that part.
fn shared_in(row: &[u8], part: &[u8]) -> Option<u64>
    requires { (b : BucketOf) × IsBucket b × (row.now ≡ bucket_bytes b) }
    ensures { (old b : BucketOf) → IsBucket old → row.now ≡ bucket_bytes old → IsShared b → part.now ≡ shared_bytes b
        → result ≡ same_shared (Some old) b }
{
    if &row[OWN_LEN..] != part {
        return None;
    }
    Some(number_in(&row[10..18]))
}

/// The owner of the container that is kept under a name, if there is one.
pub(crate) fn kept_owner<'a>(root: &'a Place<'_>, name: &[u8]) -> Option<&'a str>
    requires root { (r : RootOf) × IsRoot (object_of root.now) r }
    requires name { IsBucketName name.now }
    ensures { (r : RootOf) → IsRoot (object_of root.now) r
        → option_map (λ owner. owner.now) result ≡ option_map (λ b. b.owner) (at r.buckets name.now) }
{
    match root.row(name) {
        None => None,
        Some(row) => Some(owner_in(row)),
    }
}

/// The owner that a row names.
fn owner_in(row: &[u8]) -> &str
    requires { (b : BucketOf) × IsBucket b × (row.now ≡ bucket_bytes b) }
    ensures { (b : BucketOf) → IsBucket b → row.now ≡ bucket_bytes b → result.now ≡ b.owner }
{
    // The id stands before the owner.
    let mut reader = Reader {
        rest: &row[OWN_LEN + 8..],
    };
    reader.text().unwrap()
}
