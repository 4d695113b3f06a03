//! The tags of the entry of a name.
ghost use Rattle.std.specs.Prelude.{◌≡◌, ◌+◌, ◌*◌, ◌^◌, ◌<◌, ℕ, Option, Some, IfSome, is_some, length, slice_index_or};
ghost use Rattle.std.specs.List.{remove};
ghost use Rattle.object_pool.specs.Places.{rows_of};
ghost use Rattle.object_words.specs.declared.entry.Tag.{Tag as TagOf};
ghost use Rattle.object_words.specs.Entries.{EntryView, entry_of};
ghost use Rattle.object_words.specs.Tags.{has_due, has_tag, tags_due_taken, without_tag};
ghost use Rattle.index_entry.specs.Layouts.{IsEntry, entry_bytes, front_of};
ghost use Rattle.class_words.specs.Shards.{HasEntry};
ghost use Rattle.cls_index.specs.Rows.{KeepsToName};

use crate::rows::{front_in, take_tag};
use index_entry::{EntryFront, tag_at};
use object_pool::Place;
use object_words::Tag;

/// The tag at a place of the entry of a name.
fn tag_of(shard: &Place<'_>, name: &[u8], place: u64) -> Tag
    requires { (e : EntryView) × HasEntry (rows_of shard.now) name.now (Some e) × (place < length e.tags) }
    ensures { (e : EntryView) → HasEntry (rows_of shard.now) name.now (Some e) → place < length e.tags → (d : TagOf) → result ≡ slice_index_or e.tags place d }
{
    tag_at(shard.row(name).unwrap(), place)
}

/// The place of a tag in an entry.
fn place_of(bytes: &[u8], count: u64, tag: u64) -> Option<u64>
    requires { (e : EntryView) × IsEntry e × (bytes.now ≡ entry_bytes e) × (count ≡ length e.tags) }
    ensures found { (e : EntryView) → IsEntry e → bytes.now ≡ entry_bytes e → count ≡ length e.tags → is_some result ≡ has_tag tag e.tags }
    ensures place { IfSome result (λ place. (e : EntryView) → IsEntry e → bytes.now ≡ entry_bytes e → count ≡ length e.tags
        → (place < length e.tags) × (without_tag tag e.tags ≡ remove e.tags place)) }
{
    for place in 0..count {
        if tag_at(bytes, place).tag == tag {
            return Some(place);
        }
    }
    None
}

/// The front of the entry of a name that has a tag, and the tag's place.
pub(crate) fn find_tag(shard: &Place<'_>, name: &[u8], tag: u64) -> Option<(EntryFront, u64)>
    requires { (found : Option EntryView) × HasEntry (rows_of shard.now) name.now found }
    ensures found { (found : Option EntryView) → HasEntry (rows_of shard.now) name.now found → is_some result ≡ has_tag tag (entry_of found).tags }
    ensures there { IfSome result (λ r. (found : Option EntryView) → HasEntry (rows_of shard.now) name.now found
        → (found ≡ Some (entry_of found)) × (r.0 ≡ front_of (entry_of found)) × (r.1 < length (entry_of found).tags) × (without_tag tag (entry_of found).tags ≡ remove (entry_of found).tags r.1)) }
    ensures few { IfSome result (λ r. r.0.tags_start + 16 * r.0.tags < 2 ^ 63) }
{
    let bytes = shard.row(name)?;
    let front = front_in(bytes)?;
    let place = place_of(bytes, front.tags, tag)?;
    Some((front, place))
}

/// Takes the tags that are due at a moment from the entry of a name, and says how many are left.
pub(crate) fn take_due(shard: &mut Place<'_>, name: &[u8], front: &EntryFront, moment: u64) -> u64
    requires there { (e : EntryView) × HasEntry (rows_of shard.old) name.now (Some e) × (front.now ≡ front_of e) }
    requires few { front.now.tags_start + 16 * front.now.tags < 2 ^ 63 }
    ensures only { KeepsToName shard.old shard.new name.now }
    ensures entry { (e : EntryView) → HasEntry (rows_of shard.old) name.now (Some e) → front.now ≡ front_of e
        → HasEntry (rows_of shard.new) name.now (Some (record e { tags = tags_due_taken moment e.tags })) × (result ≡ length (tags_due_taken moment e.tags)) }
{
    let mut left = *front;
    for taken in 0..front.tags {
        // From the last place on, so that the places before it stay.
        let place = front.tags - 1 - taken;
        if tag_of(shard, name, place).deadline <= moment {
            take_tag(shard, name, &left, place);
            left.tags -= 1;
        }
    }
    left.tags
}

/// Whether some tag of the entry of a name is due at a moment.
pub(crate) fn has_due(shard: &Place<'_>, name: &[u8], count: u64, moment: u64) -> bool
    requires { (e : EntryView) × HasEntry (rows_of shard.now) name.now (Some e) × (count ≡ length e.tags) }
    ensures { (e : EntryView) → HasEntry (rows_of shard.now) name.now (Some e) → count ≡ length e.tags → result ≡ has_due moment e.tags }
{
    for place in 0..count {
        if moment >= tag_of(shard, name, place).deadline {
            return true;
        }
    }
    false
}
