//! The row of one name.
ghost use Rattle.std.specs.Prelude.{◌≡◌, ◌+◌, ◌*◌, ◌^◌, ◌<◌, ◌≤◌, [], ◌∷◌, ◌++◌, ℕ, List, Option, Some, None, option_map, length, IfSome, OnOk, OnErr};
ghost use Rattle.std.specs.List.{AllByRecursion, remove, splice};
ghost use Rattle.omap_pages.specs.Contents.{room_at};
ghost use Rattle.omap_pages.specs.Rows.{value_at};
ghost use Rattle.object_pool.specs.Places.{Stays, rows_of};
ghost use Rattle.object_words.specs.declared.entry.Tag.{Tag as TagOf};
ghost use Rattle.object_words.specs.Entries.{EntryView, entry_of, no_entry, with_tags};
ghost use Rattle.object_words.specs.Tags.{with_tag};
ghost use Rattle.index_entry.specs.Layouts.{IsEntry, IsWritten, entry_bytes, front_of};
ghost use Rattle.index_entry.specs.Numbers.{number_bytes};
ghost use Rattle.class_words.specs.Shards.{HasEntry};
ghost use Rattle.class_words.specs.Works.{WorksOnRows};
ghost use Rattle.cls_index.specs.Rows.{KeepsToName, kept_or_none};

use index_entry::{EntryFront, FRONT_MOST, TAG_LEN, front, write_front, write_tag, write_tagged};
use object_pool::{Bytes, OutOfMemory, Place};
use object_words::{EntryRow, Tag};
use std::alloc::Global;

/// How many bytes a tag has.
const TAG: u64 = TAG_LEN as u64;

/// The most bytes that an entry has before its tags.
const FRONT: u64 = FRONT_MOST as u64;

/// The most bytes of an entry with one tag.
const FIRST_ROOM: usize = FRONT_MOST + TAG_LEN;

/// The entry of a name that has none.
const BLANK: [u8; 27] = [
    0xee, 1, 0, 0, 0, 0, 0, 0, 0, 0, 0, 0, 0, 0, 0, 0, 0, 0, 0, 0, 0, 0, 0, 0, 0, 0, 0,
];

/// What the entry of a name says before its tags, if there is one.
pub(crate) fn front_at(shard: &Place<'_>, name: &[u8]) -> Option<EntryFront>
    requires { (found : Option EntryView) × HasEntry (rows_of shard.now) name.now found }
    ensures front { (found : Option EntryView) → HasEntry (rows_of shard.now) name.now found → result ≡ option_map front_of found }
    ensures few { IfSome result (λ f. f.tags_start + 16 * f.tags < 2 ^ 63) }
{
    match shard.row(name) {
        Some(bytes) => front_in(bytes),
        None => None,
    }
}

/// What the bytes of an entry say before its tags. No slice has more than 2^63 bytes.
pub(crate) fn front_in(bytes: &[u8]) -> Option<EntryFront>
    ensures exact { (e : EntryView) → IsEntry e → bytes.now ≡ entry_bytes e → result ≡ Some (front_of e) }
    ensures few { IfSome result (λ f. f.tags_start + 16 * f.tags < 2 ^ 63) }
{
    let _len = bytes.len();
    front(bytes)
}

/// Puts bytes in the place of others in the row of a name.
fn splice(shard: &mut Place<'_>, name: &[u8], start: u64, count: u64, bytes: &[u8])
    requires { (old : List ℕ) × (value_at (rows_of shard.old).rows name.now ≡ Some old) × (start + count ≤ length old)
        × (length old + length bytes.now ≤ room_at (rows_of shard.old).rooms name.now + count) }
    ensures only { KeepsToName shard.old shard.new name.now }
    ensures row { (old : List ℕ) → value_at (rows_of shard.old).rows name.now ≡ Some old
        → value_at (rows_of shard.new).rows name.now ≡ Some (splice old start (start + count) bytes.now) }
    ensures room { room_at (rows_of shard.old).rooms name.now ≤ room_at (rows_of shard.new).rooms name.now }
{
    shard.splice_row(name, start, count, bytes);
}

/// A number in eight bytes.
#[tactic(auto, unfolding(index_entry::specs::Numbers::number_bytes))]
fn number(n: u64) -> [u8; 8]
    ensures { result ≡ number_bytes n }
{
    n.to_be_bytes()
}

/// Takes the tag at a place from the entry of a name.
pub(crate) fn take_tag(shard: &mut Place<'_>, name: &[u8], front: &EntryFront, place: u64)
    requires there { (e : EntryView) × HasEntry (rows_of shard.old) name.now (Some e) × (front.now ≡ front_of e) × (place < length e.tags) }
    requires few { front.now.tags_start + 16 * front.now.tags < 2 ^ 63 }
    ensures only { KeepsToName shard.old shard.new name.now }
    ensures entry { (e : EntryView) → HasEntry (rows_of shard.old) name.now (Some e) → front.now ≡ front_of e → place < length e.tags
        → HasEntry (rows_of shard.new) name.now (Some (record e { tags = remove e.tags place })) }
{
    if place == 0 {
        return take_first_tag(shard, name, front);
    }
    let start = front.tags_start + TAG * place;
    splice(shard, name, start, TAG, &[]);
    let count = number(front.tags - 1);
    splice(shard, name, front.tags_start - 8, 8, &count);
}

/// Takes the first tag from the entry of a name. The number of tags stands right before it.
fn take_first_tag(shard: &mut Place<'_>, name: &[u8], front: &EntryFront)
    requires there { (e : EntryView) × HasEntry (rows_of shard.old) name.now (Some e) × (front.now ≡ front_of e) × (0 < length e.tags) }
    requires few { front.now.tags_start + 16 * front.now.tags < 2 ^ 63 }
    ensures only { KeepsToName shard.old shard.new name.now }
    ensures entry { (e : EntryView) → HasEntry (rows_of shard.old) name.now (Some e) → front.now ≡ front_of e → 0 < length e.tags
        → HasEntry (rows_of shard.new) name.now (Some (record e { tags = remove e.tags 0 })) }
{
    let count = number(front.tags - 1);
    splice(shard, name, front.tags_start - 8, 8 + TAG, &count);
}

/// Adds a tag behind those of the entry of a name.
fn push_tag(
    alloc: Global,
    shard: &mut Place<'_>,
    name: &[u8],
    front: &EntryFront,
    tag: &Tag,
) -> Result<(), OutOfMemory>
    requires there { (e : EntryView) × HasEntry (rows_of shard.old) name.now (Some e) × (front.now ≡ front_of e) }
    requires few { front.now.tags_start + 16 * front.now.tags < 2 ^ 63 }
    ensures only { KeepsToName shard.old shard.new name.now }
    ensures ok { (e : EntryView) → HasEntry (rows_of shard.old) name.now (Some e) → front.now ≡ front_of e → AllByRecursion (λ t. t.tag < tag.now.tag) e.tags
        → OnOk result (HasEntry (rows_of shard.new) name.now (Some (record e { tags = with_tag tag.now e.tags }))) }
    ensures err { OnErr result (Stays shard.old shard.new) }
{
    shard.widen_row(alloc, name, FRONT + TAG * (front.tags + 1))?;
    let end = front.tags_start + TAG * front.tags;
    splice(shard, name, end, 0, &write_tag(tag));
    let count = number(front.tags + 1);
    splice(shard, name, front.tags_start - 8, 8, &count);
    Ok(())
}

/// Puts another revision into the entry of a name.
pub(crate) fn put_revision(shard: &mut Place<'_>, name: &[u8], revision: u64)
    requires { (e : EntryView) × HasEntry (rows_of shard.old) name.now (Some e) }
    ensures only { KeepsToName shard.old shard.new name.now }
    ensures entry { (e : EntryView) → HasEntry (rows_of shard.old) name.now (Some e) → HasEntry (rows_of shard.new) name.now (Some (record e { revision = revision })) }
{
    splice(shard, name, 11, 8, &number(revision));
}

/// Puts another version, revision and row into the entry of a name.
pub(crate) fn put_front(
    shard: &mut Place<'_>,
    name: &[u8],
    front: &EntryFront,
    version: u64,
    revision: u64,
    row: &EntryRow,
)
    requires { (e : EntryView) × HasEntry (rows_of shard.old) name.now (Some e) × (front.now ≡ front_of e) }
    ensures only { KeepsToName shard.old shard.new name.now }
    ensures entry { (e : EntryView) → HasEntry (rows_of shard.old) name.now (Some e) → front.now ≡ front_of e
        → HasEntry (rows_of shard.new) name.now (Some (record e { version = version; revision = revision; row = row.now })) }
    ensures bounds { IsWritten row.now }
{
    let mut out = [0; FRONT_MOST];
    let len = write_front(version, revision, row, front.tags, &mut out);
    splice(shard, name, 0, front.tags_start, &out[..len]);
}

/// Puts an entry with one tag in the place of all that the row of a name has.
fn put_tagged(
    alloc: Global,
    shard: &mut Place<'_>,
    name: &[u8],
    count: u64,
    bytes: &[u8],
) -> Result<(), OutOfMemory>
    requires { (old : List ℕ) × (e : EntryView) × (value_at (rows_of shard.old).rows name.now ≡ Some old) × (count ≡ length old) × IsEntry e × (bytes.now ≡ entry_bytes e) × (length e.tags ≡ 1) }
    ensures only { KeepsToName shard.old shard.new name.now }
    ensures ok { (old : List ℕ) (e : EntryView) → value_at (rows_of shard.old).rows name.now ≡ Some old → count ≡ length old → IsEntry e → bytes.now ≡ entry_bytes e → length e.tags ≡ 1
        → OnOk result (HasEntry (rows_of shard.new) name.now (Some e)) }
    ensures err { OnErr result (Stays shard.old shard.new) }
{
    shard.widen_row(alloc, name, FIRST_ROOM as u64)?;
    splice(shard, name, 0, count, bytes);
    Ok(())
}

/// Puts the first entry of a name, with one tag.
fn put_first(
    alloc: Global,
    shard: &mut Place<'_>,
    name: &[u8],
    tag: &Tag,
) -> Result<(), OutOfMemory>
    ensures only { KeepsToName shard.old shard.new name.now }
    ensures ok { OnOk result (HasEntry (rows_of shard.new) name.now (Some (with_tags no_entry (with_tag tag.now [])))) }
    ensures err { OnErr result (Stays shard.old shard.new) }
{
    let mut out = [0; FIRST_ROOM];
    let len = write_tagged(&BLANK, 1, tag, &mut out);
    let key = Bytes::from_slice(alloc, name)?;
    // A row has room for its first value, which is therefore as long as the entry may become.
    let value = Bytes::from_slice(alloc, &[0; FIRST_ROOM])?;
    shard.put_row(alloc, key, value)?;
    splice(shard, name, 0, FIRST_ROOM as u64, &out[..len]);
    Ok(())
}

/// Adds a tag to the entry of a name that has tags.
fn add_further(
    alloc: Global,
    shard: &mut Place<'_>,
    name: &[u8],
    front: &EntryFront,
    tag: &Tag,
) -> Result<(), OutOfMemory>
    requires there { (e : EntryView) × HasEntry (rows_of shard.old) name.now (Some e) × (front.now ≡ front_of e) × AllByRecursion (λ t. t.tag < tag.now.tag) e.tags }
    requires few { front.now.tags_start + 16 * front.now.tags < 2 ^ 63 }
    ensures only { KeepsToName shard.old shard.new name.now }
    ensures ok { (e : EntryView) → HasEntry (rows_of shard.old) name.now (Some e) → front.now ≡ front_of e → AllByRecursion (λ t. t.tag < tag.now.tag) e.tags
        → OnOk result (HasEntry (rows_of shard.new) name.now (Some (with_tags e (with_tag tag.now e.tags)))) }
    ensures err { OnErr result (Stays shard.old shard.new) }
{
    push_tag(alloc, shard, name, front, tag)?;
    put_revision(shard, name, front.revision.saturating_add(1));
    Ok(())
}

/// Adds a tag to the entry of a name, which need not be there.
pub(crate) fn add_tag(
    alloc: Global,
    shard: &mut Place<'_>,
    name: &[u8],
    tag: &Tag,
) -> Result<(), OutOfMemory>
    requires { (found : Option EntryView) × HasEntry (rows_of shard.old) name.now found × AllByRecursion (λ t. t.tag < tag.now.tag) (entry_of found).tags }
    ensures only { KeepsToName shard.old shard.new name.now }
    ensures ok { (found : Option EntryView) → HasEntry (rows_of shard.old) name.now found → AllByRecursion (λ t. t.tag < tag.now.tag) (entry_of found).tags
        → OnOk result (HasEntry (rows_of shard.new) name.now (Some (with_tags (entry_of found) (with_tag tag.now (entry_of found).tags)))) }
    ensures err { OnErr result (Stays shard.old shard.new) }
{
    let Some(bytes) = shard.row(name) else {
        return put_first(alloc, shard, name, tag);
    };
    let front = front_in(bytes).unwrap();
    if front.tags > 0 {
        return add_further(alloc, shard, name, &front, tag);
    }
    let mut out = [0; FIRST_ROOM];
    let revision = front.revision.saturating_add(1);
    let len = write_tagged(bytes, revision, tag, &mut out);
    put_tagged(alloc, shard, name, front.tags_start, &out[..len])
}

/// Takes the entry of a name away where nothing is left of it.
pub(crate) fn drop_if_empty(shard: &mut Place<'_>, name: &[u8], exists: bool, tags: u64)
    requires { (e : EntryView) × HasEntry (rows_of shard.old) name.now (Some e) × (exists ≡ e.row.exists) × (tags ≡ length e.tags) }
    ensures only { KeepsToName shard.old shard.new name.now }
    ensures entry { (e : EntryView) → HasEntry (rows_of shard.old) name.now (Some e) → exists ≡ e.row.exists → tags ≡ length e.tags
        → HasEntry (rows_of shard.new) name.now (kept_or_none e) }
{
    if !exists && tags == 0 {
        shard.take_row(name);
    }
}
