//! Laws of the definitions: the functions here do nothing.
ghost use Rattle.std.specs.Prelude.{◌≡◌};
ghost use Rattle.object_words.specs.declared.bucket.Bucket.{Bucket as BucketOf};
ghost use Rattle.object_pool.specs.Objects.{nothing};
ghost use Rattle.object_words.specs.Roots.{no_root};
ghost use Rattle.cls_record.specs.BucketRows.{IsBucket, bucket_bytes};
ghost use Rattle.cls_record.specs.RootObjects.{IsRoot};

/// Bytes are the row of one container at most.
pub fn a_bucket_row_has_one_spelling()
    ensures { (a b : BucketOf) → IsBucket a → IsBucket b → bucket_bytes a ≡ bucket_bytes b → a ≡ b }
{}

/// The root of a zone that has no container yet is no object.
pub fn a_new_zone_has_no_root()
    ensures { IsRoot nothing no_root }
{}
