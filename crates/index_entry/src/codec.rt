ghost use Rattle.std.specs.Prelude.{◌≡◌, ◌≢◌, ◌+◌, ◌*◌, ◌≤◌, ◌++◌, ℕ, List, Some, true, IfOk, IfSome, IfNone, length, drop};
ghost use Rattle.std.specs.List.{AllByRecursion};
ghost use Rattle.object_words.specs.declared.entry.Tag.{Tag as TagOf};
ghost use Rattle.object_words.specs.Rows.{RowView};
ghost use Rattle.object_words.specs.Entries.{EntryView};
ghost use Rattle.index_entry.specs.Layouts.{IsEntry, IsTag, IsWritten, entry_bytes, row_bytes, tags_bytes};

use crate::OutOfMemory;
use crate::entry::{
    FRONT_MOST, TAG_LEN, front, size_of_row, tag_in, tags_start, write_front, write_tag,
};
use crate::numbers::{u16_at, u64_at};
use object_words::{Entry, EntryRow, MediaType, ObjectName, Tags};
use rgw_types::{Bytes, Stamp, Text};
use std::alloc::Global;

/// The bytes of an entry, without its name. They are at most 318, and 16 for each tag.
pub fn encode_entry(alloc: Global, entry: &Entry) -> Result<Bytes, OutOfMemory>
    ensures form { IfOk result (λ bytes. bytes ≡ entry_bytes entry.now.1) }
    ensures bounds { IfOk result (λ bytes. IsEntry entry.now.1) }
    ensures most { IfOk result (λ bytes. length bytes ≤ 318 + 16 * length entry.now.1.tags) }
{
    let mut out = [0; FRONT_MOST];
    let tags = entry.tags.as_slice();
    let len = write_front(
        entry.version,
        entry.revision,
        &entry.row,
        tags.len() as u64,
        &mut out,
    );
    let mut bytes = Bytes::from_slice(alloc, &out[..len])?;
    for tag in tags {
        bytes.extend(&write_tag(tag))?;
    }
    Ok(bytes)
}

/// The entry of this name that is written so, if one is.
pub fn decode_entry(
    alloc: Global,
    name: &ObjectName,
    bytes: &[u8],
) -> Result<Option<Entry>, OutOfMemory>
    ensures found { IfOk result (λ found. IfSome found (λ e. (e.0 ≡ name.now) × IsEntry e.1 × (bytes.now ≡ entry_bytes e.1))) }
    ensures exact { IfOk result (λ found. (e : EntryView) → IsEntry e → bytes.now ≡ entry_bytes e → found ≡ Some (name.now, e)) }
    ensures none { IfOk result (λ found. IfNone found ((e : EntryView) → IsEntry e → bytes.now ≢ entry_bytes e)) }
{
    if front(bytes).is_none() {
        return Ok(None);
    }
    let entry = read_entry(alloc, name.clone()?, bytes)?;
    Ok(Some(entry))
}

/// The entry of this name that these bytes are. That they are one is not tested again.
pub fn read_entry(alloc: Global, name: ObjectName, bytes: &[u8]) -> Result<Entry, OutOfMemory>
    requires { (e : EntryView) × IsEntry e × (bytes.now ≡ entry_bytes e) }
    ensures { IfOk result (λ entry. (e : EntryView) → IsEntry e → bytes.now ≡ entry_bytes e → entry ≡ (name, e)) }
{
    let row = row_of(alloc, bytes)?;
    let start = tags_start(bytes);
    let tags = tags_in(alloc, bytes, start, (bytes.len() - start) / TAG_LEN)?;
    Ok(Entry {
        name,
        version: u64_at(bytes, 3),
        revision: u64_at(bytes, 11),
        row,
        tags,
    })
}

/// The row of an entry.
fn row_of(alloc: Global, bytes: &[u8]) -> Result<EntryRow, OutOfMemory>
    requires { (e : EntryView) × IsEntry e × (bytes.now ≡ entry_bytes e) }
    ensures { IfOk result (λ row. (e : EntryView) → IsEntry e → bytes.now ≡ entry_bytes e → row ≡ e.row) }
{
    if bytes[2] != 1 {
        return Ok(EntryRow::absent(alloc));
    }
    let kind = kind_of(alloc, bytes)?;
    Ok(EntryRow {
        exists: true,
        size: size_of_row(bytes, true),
        stamp: stamp_of(bytes),
        etag: etag_of(bytes),
        kind,
    })
}

/// The stamp in the row of an object that exists.
fn stamp_of(bytes: &[u8]) -> Stamp
    requires { 36 ≤ length bytes.now }
    ensures { (row : RowView) (rest : List ℕ) → IsWritten row → row.exists ≡ true
        → drop 19 bytes.now ≡ row_bytes row ++ rest → result ≡ row.stamp }
{
    Stamp {
        micros: u64_at(bytes, 27),
        zone: bytes[35],
    }
}

/// The ETag in the row of an object that exists.
fn etag_of(bytes: &[u8]) -> [u8; 16]
    requires { 52 ≤ length bytes.now }
    ensures { (etag rest : List ℕ) → length etag ≡ 16 → drop 36 bytes.now ≡ etag ++ rest → result ≡ etag }
{
    let mut etag = [0; 16];
    etag.copy_from_slice(&bytes[36..52]);
    etag
}

/// The type in the row of an object that exists.
fn kind_of(alloc: Global, bytes: &[u8]) -> Result<MediaType, OutOfMemory>
    requires { (row : RowView) × (rest : List ℕ) × IsWritten row × (row.exists ≡ true) × (drop 19 bytes.now ≡ row_bytes row ++ rest) }
    ensures { IfOk result (λ kind. (row : RowView) (rest : List ℕ) → IsWritten row → row.exists ≡ true
        → drop 19 bytes.now ≡ row_bytes row ++ rest → kind ≡ row.kind) }
{
    let end = 54 + usize::from(u16_at(bytes, 52));
    // An entry's type is text, so it is not tested again.
    let text = unsafe { str::from_utf8_unchecked(&bytes[54..end]) };
    let text = Text::from_str(alloc, text)?;
    Ok(MediaType::new(text).unwrap())
}

/// So many tags from a place on.
fn tags_in(alloc: Global, bytes: &[u8], start: usize, count: usize) -> Result<Tags, OutOfMemory>
    requires { start + 16 * count ≤ length bytes.now }
    ensures { IfOk result (λ read. (tags : List TagOf) → AllByRecursion IsTag tags → length tags ≡ count
        → drop start bytes.now ≡ tags_bytes tags → read ≡ tags) }
{
    let mut tags = Tags::new(alloc);
    for place in 0..count {
        tags.push(tag_in(bytes, start + TAG_LEN * place))?;
    }
    Ok(tags)
}
