ghost use Rattle.std.specs.Prelude.{◌≡◌, ◌≢◌, ◌+◌, ◌*◌, ◌≤◌, ◌<◌, ◌++◌, ◌∷◌, [], ℕ, List, Some, true, IsTrue, IfSome, IfNone, length, drop, slice_index_or};
ghost use Rattle.std.specs.List.{AllByRecursion};
ghost use Rattle.object_words.specs.declared.entry.Tag.{Tag as TagOf};
ghost use Rattle.object_words.specs.Rows.{RowView};
ghost use Rattle.object_words.specs.Tags.{tags_rise};
ghost use Rattle.object_words.specs.Entries.{EntryView};
ghost use Rattle.index_entry.specs.Layouts.{IsEntry, IsTag, IsWritten, entry_bytes, flag, front_bytes, front_of, row_bytes, tag_bytes, tags_bytes};
ghost use Rattle.index_entry.specs.Numbers.{number_bytes};

use crate::numbers::{is_text, put, u16_at, u64_at};
use object_words::{EntryRow, Tag};

/// The first byte of an entry.
const KIND: u8 = 0xee;

/// The number of the first layout.
const LAYOUT: u8 = 1;

/// The last of the zones, which begin at 1.
const LAST_ZONE: u8 = 8;

/// The most bytes that a type has.
const KIND_MOST: usize = 256;

/// How many bytes a tag has.
pub const TAG_LEN: usize = 16;

/// The most bytes that an entry has before its tags.
pub const FRONT_MOST: usize = 318;

/// What an entry says before its tags, without its type: how many tags it has, and at which byte they
/// begin.
#[derive(Clone, Copy, Debug, PartialEq, Eq)]
pub struct EntryFront {
    pub version: u64,
    pub revision: u64,
    pub exists: bool,
    pub size: u64,
    pub tags: u64,
    pub tags_start: u64,
}

/// The front of the entry that is written so, if one is. Takes no memory.
pub fn front(bytes: &[u8]) -> Option<EntryFront>
    ensures found { IfSome result (λ f. (e : EntryView) × IsEntry e × (bytes.now ≡ entry_bytes e) × (f ≡ front_of e)) }
    ensures exact { (e : EntryView) → IsEntry e → bytes.now ≡ entry_bytes e → result ≡ Some (front_of e) }
    ensures none { IfNone result ((e : EntryView) → IsEntry e → bytes.now ≢ entry_bytes e) }
{
    let count_start = row_end(bytes)?;
    let tags_start = count_start + 8;
    let tags = u64_at(bytes, count_start);
    if !has_tags(bytes, tags_start, tags) {
        return None;
    }
    let exists = bytes[2] == 1;
    Some(EntryFront {
        version: u64_at(bytes, 3),
        revision: u64_at(bytes, 11),
        exists,
        size: size_of_row(bytes, exists),
        tags,
        tags_start: tags_start as u64,
    })
}

/// The size that a row tells; 0 where its object does not exist.
pub(crate) fn size_of_row(bytes: &[u8], exists: bool) -> u64
    requires { 27 ≤ length bytes.now }
    ensures { (row : RowView) (rest : List ℕ) → IsWritten row → row.exists ≡ exists → drop 19 bytes.now ≡ row_bytes row ++ rest → result ≡ row.size }
{
    if exists { u64_at(bytes, 19) } else { 0 }
}

/// Where the row of an entry ends, if the bytes begin as those of an entry do.
fn row_end(bytes: &[u8]) -> Option<usize>
    ensures found { IfSome result (λ end. (row : RowView) × IsWritten row × (end ≡ 19 + length (row_bytes row)) × (end + 8 ≤ length bytes.now)
        × (bytes.now ≡ 238 ∷ 1 ∷ flag row.exists ∷ drop 3 bytes.now) × (drop 19 bytes.now ≡ row_bytes row ++ drop end bytes.now)) }
    ensures exact { (version revision : ℕ) (row : RowView) (rest : List ℕ) → IsWritten row → 8 ≤ length rest
        → bytes.now ≡ 238 ∷ 1 ∷ flag row.exists ∷ (number_bytes version ++ (number_bytes revision ++ (row_bytes row ++ rest)))
        → result ≡ Some (19 + length (row_bytes row)) }
{
    if bytes.len() < 27 || bytes[0] != KIND || bytes[1] != LAYOUT {
        return None;
    }
    match bytes[2] {
        0 => Some(19),
        1 => live_end(bytes),
        _ => None,
    }
}

/// Where the row of an object that exists ends, if the bytes from the twentieth on begin as such a row
/// does.
fn live_end(bytes: &[u8]) -> Option<usize>
    ensures found { IfSome result (λ end. (row : RowView) × IsWritten row × (row.exists ≡ true) × (end ≡ 19 + length (row_bytes row))
        × (end + 8 ≤ length bytes.now) × (drop 19 bytes.now ≡ row_bytes row ++ drop end bytes.now)) }
    ensures exact { (row : RowView) (rest : List ℕ) → IsWritten row → row.exists ≡ true → 8 ≤ length rest
        → drop 19 bytes.now ≡ row_bytes row ++ rest → result ≡ Some (19 + length (row_bytes row)) }
{
    if bytes.len() < 62 {
        return None;
    }
    let zone = bytes[35];
    let kind_len = usize::from(u16_at(bytes, 52));
    let end = 54 + kind_len;
    if zone < 1 || zone > LAST_ZONE || kind_len > KIND_MOST || bytes.len() < end + 8 {
        return None;
    }
    if !is_text(&bytes[54..end]) {
        return None;
    }
    Some(end)
}

/// Whether the bytes from a place on are so many tags, by rising number.
fn has_tags(bytes: &[u8], start: usize, count: u64) -> bool
    requires { start ≤ length bytes.now }
    ensures found { IsTrue result → (tags : List TagOf) × AllByRecursion IsTag tags × (tags_rise tags ≡ true) × (length tags ≡ count)
        × (drop start bytes.now ≡ tags_bytes tags) }
    ensures exact { (tags : List TagOf) → AllByRecursion IsTag tags → tags_rise tags ≡ true → length tags ≡ count
        → drop start bytes.now ≡ tags_bytes tags → IsTrue result }
{
    let rest = bytes.len() - start;
    if rest % TAG_LEN != 0 || (rest / TAG_LEN) as u64 != count {
        return false;
    }
    is_rising(bytes, start, rest / TAG_LEN)
}

/// Whether the numbers of so many tags from a place on rise.
fn is_rising(bytes: &[u8], start: usize, count: usize) -> bool
    requires { start + 16 * count ≤ length bytes.now }
    ensures { (tags : List TagOf) → AllByRecursion IsTag tags → length tags ≡ count
        → drop start bytes.now ≡ tags_bytes tags → result ≡ tags_rise tags }
{
    for place in 1..count {
        let before = tag_in(bytes, start + TAG_LEN * (place - 1));
        let tag = tag_in(bytes, start + TAG_LEN * place);
        if before.tag >= tag.tag {
            return false;
        }
    }
    true
}

/// The tag in the sixteen bytes from a place on.
pub(crate) fn tag_in(bytes: &[u8], at: usize) -> Tag
    requires { at + 16 ≤ length bytes.now }
    ensures read { drop at bytes.now ≡ tag_bytes result ++ drop (at + 16) bytes.now }
    ensures fits { IsTag result }
    ensures once { (t : TagOf) (rest : List ℕ) → IsTag t → drop at bytes.now ≡ tag_bytes t ++ rest → result ≡ t }
{
    Tag {
        tag: u64_at(bytes, at),
        deadline: u64_at(bytes, at + 8),
    }
}

/// The tag at a place of an entry. Takes no memory.
pub fn tag_at(bytes: &[u8], place: u64) -> Tag
    requires { (e : EntryView) × IsEntry e × (bytes.now ≡ entry_bytes e) × (place < length e.tags) }
    ensures { (e : EntryView) → IsEntry e → bytes.now ≡ entry_bytes e → place < length e.tags → (d : TagOf) → result ≡ slice_index_or e.tags place d }
{
    tag_in(bytes, tags_start(bytes) + TAG_LEN * place as usize)
}

/// Where the tags of an entry begin.
pub(crate) fn tags_start(bytes: &[u8]) -> usize
    requires { (e : EntryView) × IsEntry e × (bytes.now ≡ entry_bytes e) }
    ensures { (e : EntryView) → IsEntry e → bytes.now ≡ entry_bytes e → result ≡ 27 + length (row_bytes e.row) }
{
    if bytes[2] == 1 {
        62 + usize::from(u16_at(bytes, 52))
    } else {
        27
    }
}

/// The bytes of a tag: its number and its deadline, in eight bytes each.
#[tactic(auto, unfolding(crate::specs::Numbers::number_bytes))]
pub fn write_tag(tag: &Tag) -> [u8; 16]
    ensures form { result ≡ tag_bytes tag.now }
    ensures fits { IsTag tag.now }
{
    let number = tag.tag.to_be_bytes();
    let deadline = tag.deadline.to_be_bytes();
    [
        number[0],
        number[1],
        number[2],
        number[3],
        number[4],
        number[5],
        number[6],
        number[7],
        deadline[0],
        deadline[1],
        deadline[2],
        deadline[3],
        deadline[4],
        deadline[5],
        deadline[6],
        deadline[7],
    ]
}

/// Writes the bytes of an entry before its tags, of which there are so many, and gives how many bytes
/// these are. Takes no memory.
pub fn write_front(
    version: u64,
    revision: u64,
    row: &EntryRow,
    tags: u64,
    out: &mut [u8; 318],
) -> usize
    ensures len { result ≡ length (front_bytes version revision row.now tags) }
    ensures written { out.new ≡ front_bytes version revision row.now tags ++ drop result out.old }
    ensures bounds { IsWritten row.now }
{
    let at = put(out, 0, &[KIND, LAYOUT, u8::from(row.exists)]);
    let at = put(out, at, &version.to_be_bytes());
    let at = put(out, at, &revision.to_be_bytes());
    let at = put_row(out, at, row);
    put(out, at, &tags.to_be_bytes())
}

/// Writes an entry that has no tags with this revision and one tag, and gives how many bytes that are.
/// Takes no memory.
pub fn write_tagged(bytes: &[u8], revision: u64, tag: &Tag, out: &mut [u8; 334]) -> usize
    requires { (e : EntryView) × IsEntry e × (bytes.now ≡ entry_bytes e) × (e.tags ≡ []) }
    ensures len { (e : EntryView) → IsEntry e → bytes.now ≡ entry_bytes e → e.tags ≡ [] → result ≡ length (entry_bytes (record e { revision = revision; tags = tag.now ∷ [] })) }
    ensures written { (e : EntryView) → IsEntry e → bytes.now ≡ entry_bytes e → e.tags ≡ []
        → out.new ≡ entry_bytes (record e { revision = revision; tags = tag.now ∷ [] }) ++ drop result out.old }
    ensures fits { (e : EntryView) → IsEntry e → e.tags ≡ [] → IsEntry (record e { revision = revision; tags = tag.now ∷ [] }) }
{
    let count_start = bytes.len() - 8;
    let at = put(out, 0, &bytes[..11]);
    let at = put(out, at, &revision.to_be_bytes());
    let at = put(out, at, &bytes[19..count_start]);
    let at = put(out, at, &1u64.to_be_bytes());
    put(out, at, &write_tag(tag))
}

/// Writes a row at a place, and gives the place behind it.
fn put_row(out: &mut [u8], at: usize, row: &EntryRow) -> usize
    requires { at + 291 ≤ length out.old }
    ensures end { result ≡ at + length (row_bytes row.now) }
    ensures most { length (row_bytes row.now) ≤ 291 }
    ensures written { (p q : List ℕ) → length p ≡ at → out.old ≡ p ++ q → out.new ≡ (p ++ row_bytes row.now) ++ drop (length (row_bytes row.now)) q }
    ensures bounds { IsWritten row.now }
{
    let kind = row.kind.as_text().as_str();
    let size = row.size;
    let micros = row.stamp.micros;
    let zone = row.stamp.zone;
    if !row.exists {
        return at;
    }
    let at = put(out, at, &size.to_be_bytes());
    let at = put(out, at, &micros.to_be_bytes());
    let at = put(out, at, &[zone]);
    let at = put_etag(out, at, &row.etag);
    let at = put(out, at, &(kind.len() as u16).to_be_bytes());
    put(out, at, kind.as_bytes())
}

/// Writes an ETag at a place, and gives the place behind it.
fn put_etag(out: &mut [u8], at: usize, etag: &[u8; 16]) -> usize
    requires { at + 16 ≤ length out.old }
    ensures long { length etag.now ≡ 16 }
    ensures end { result ≡ at + length etag.now }
    ensures fits { AllByRecursion (λ b. b < 256) etag.now }
    ensures written { (p q : List ℕ) → length p ≡ at → out.old ≡ p ++ q → out.new ≡ (p ++ etag.now) ++ drop (length etag.now) q }
{
    put(out, at, etag)
}
