mod callers;

use super::fillers::{letters, long_key, repeated};
use object_pool::{NoSpace, OutOfMemory, Pool};
use omap_pages::{SPARE_KEY_LEN, SPARE_VALUE_LEN};
use rgw_types::{Bytes, Key, PartNumber, Text};
use std::alloc::{AllocError, Global};
use std::test::Fail;

fn bytes(alloc: Global, text: &[u8]) -> Result<Bytes, OutOfMemory> {
    Ok(Bytes::from_slice(alloc, text)?)
}

fn head(alloc: Global) -> Result<Key, AllocError> {
    Ok(Key::Head {
        container: 7,
        name: Text::from_str(alloc, "a")?,
    })
}

fn tail(write: u64) -> Key {
    Key::Tail {
        write,
        part: PartNumber::new(1),
    }
}

// Whether a head that was not there has 19 bytes of 2 frames, attributes and a row.
fn is_made(alloc: Global, pool: &mut Pool, head: &Key) -> Result<bool, OutOfMemory> {
    if pool.find(head).is_some() {
        return Ok(false);
    }
    let attrs = bytes(alloc, b"v1")?;
    let (row, value) = (bytes(alloc, b"k")?, bytes(alloc, b"1")?);
    let mut place = pool.place(alloc, head)?;
    let was_there = place.exists();
    let is_put = place.put_bytes(b"0123456789abcdefXYZ").is_ok();
    place.set_attrs(attrs);
    place.put_row(alloc, row, value)?;
    Ok(is_put && !was_there)
}

// Whether the object has those bytes, and the row.
fn is_found(alloc: Global, pool: &mut Pool, head: &Key) -> Result<bool, OutOfMemory> {
    let Some(place) = pool.find(head) else {
        return Ok(false);
    };
    let end = place.bytes(alloc, 15, 10)?;
    let behind = place.bytes(alloc, 30, 10)?;
    Ok(
        place.size() == 19
            && end.as_slice() == b"fXYZ".as_slice()
            && behind.len() == 0
            && place.row(b"k") == Some(b"1".as_slice()),
    )
}

// Whether it takes fewer bytes and other attributes.
fn is_changed(pool: &mut Pool, head: &Key) -> bool {
    let Some(mut place) = pool.find(head) else {
        return false;
    };
    let is_put = place.put_bytes(&[b'z'; 16]).is_ok();
    if place.attrs().len() == 2 {
        place.write_attrs(1, b"2");
    }
    is_put && place.attrs() == b"v2".as_slice()
}

// Whether it is made, found and changed, and how many of 6 frames are free when it is.
fn comes_and_changes(alloc: Global, pool: &mut Pool, head: &Key) -> Result<bool, OutOfMemory> {
    let is_made = is_made(alloc, pool, head)? && pool.free() == 4;
    let is_found = is_found(alloc, pool, head)?;
    let is_changed = is_changed(pool, head) && pool.free() == 5;
    Ok(is_made && is_found && is_changed)
}

#[test]
fn objects_come_and_change(rt: HostRuntime) -> Result<(), Fail> {
    let head = head(rt.alloc())?;
    let mut pool = Pool::new(rt.alloc(), 6, 16)?;
    let is_so = comes_and_changes(rt.alloc(), &mut pool, &head);
    drop(pool);
    drop(head);
    assert!(rt; is_so?);
    Ok(())
}

// Whether a tail of 33 bytes takes 3 frames, and gives them back when it is dropped.
fn comes_and_goes(alloc: Global, pool: &mut Pool, tail: &Key) -> Result<bool, OutOfMemory> {
    let mut place = pool.place(alloc, tail)?;
    let is_put = place.put_bytes(&[b't'; 33]).is_ok();
    drop(place);
    if !is_put || pool.free() != 3 {
        return Ok(false);
    }
    let Some(mut place) = pool.find(tail) else {
        return Ok(false);
    };
    place.drop_object();
    let is_there = place.exists();
    drop(place);
    Ok(!is_there && pool.find(tail).is_none() && pool.free() == 6)
}

#[test]
fn dropped_objects_are_gone(rt: HostRuntime) -> Result<(), Fail> {
    let mut pool = Pool::new(rt.alloc(), 6, 16)?;
    let comes_and_goes = comes_and_goes(rt.alloc(), &mut pool, &tail(3));
    drop(pool);
    assert!(rt; comes_and_goes?);
    Ok(())
}

// Whether the object is there until bytes, attributes and the row are taken away, the last row last.
fn is_emptied(alloc: Global, pool: &mut Pool, head: &Key) -> bool {
    let Some(mut place) = pool.find(head) else {
        return false;
    };
    let is_put = place.put_bytes(b"").is_ok();
    place.set_attrs(Bytes::new(alloc));
    let is_left = place.exists();
    let is_taken = place.take_row(b"k");
    let is_there = place.exists();
    is_put && is_left && is_taken && !is_there
}

// Whether it is made and emptied, and nothing of it is left.
fn comes_and_is_emptied(alloc: Global, pool: &mut Pool, head: &Key) -> Result<bool, OutOfMemory> {
    let is_made = is_made(alloc, pool, head)?;
    let is_emptied = is_emptied(alloc, pool, head);
    Ok(is_made && is_emptied && pool.find(head).is_none() && pool.free() == 6)
}

#[test]
fn the_last_row_is_the_last_of_an_object(rt: HostRuntime) -> Result<(), Fail> {
    let head = head(rt.alloc())?;
    let mut pool = Pool::new(rt.alloc(), 6, 16)?;
    let is_so = comes_and_is_emptied(rt.alloc(), &mut pool, &head);
    drop(pool);
    drop(head);
    assert!(rt; is_so?);
    Ok(())
}

// What the only frame of 16 bytes has no room for, at this place.
fn refused(alloc: Global, pool: &mut Pool, given: &[u8]) -> Result<Option<NoSpace>, OutOfMemory> {
    let mut place = pool.place(alloc, &Key::Root)?;
    Ok(place.put_bytes(given).err())
}

// Whether the object has those bytes and no others.
fn has_bytes(alloc: Global, pool: &mut Pool, wanted: &[u8]) -> Result<bool, OutOfMemory> {
    let kept = pool.place(alloc, &Key::Root)?.bytes(alloc, 0, 99)?;
    let is_so = kept.as_slice() == wanted;
    drop(kept);
    Ok(is_so)
}

// Whether 26 bytes, which need 2 frames of 16, are refused.
fn too_many_bytes(alloc: Global, pool: &mut Pool) -> Result<bool, OutOfMemory> {
    let found = refused(alloc, pool, b"abcdefghijklmnopqrstuvwxyz")?;
    let is_refused = found == Some(NoSpace { free: 1, needed: 2 });
    Ok(is_refused && pool.find(&Key::Root).is_none() && pool.free() == 1)
}

// Whether new bytes are refused, which need frames beside those of the old ones.
fn no_room_beside(alloc: Global, pool: &mut Pool) -> Result<bool, OutOfMemory> {
    let is_taken = refused(alloc, pool, b"0123456789abcdef")?.is_none();
    let found = refused(alloc, pool, b"abc")?;
    let is_refused = found == Some(NoSpace { free: 0, needed: 1 });
    let is_kept = has_bytes(alloc, pool, b"0123456789abcdef")?;
    Ok(is_taken && is_refused && is_kept && pool.free() == 0)
}

#[test]
fn too_few_frames_change_nothing(rt: HostRuntime) -> Result<(), Fail> {
    let mut pool = Pool::new(rt.alloc(), 1, 16)?;
    let first = too_many_bytes(rt.alloc(), &mut pool);
    let second = no_room_beside(rt.alloc(), &mut pool);
    drop(pool);
    assert!(rt; first?);
    assert!(rt; second?);
    Ok(())
}

// Makes so many spare rows ready, and puts one of them under this key, where it is to have no row yet.
fn put_spare(
    alloc: Global,
    pool: &mut Pool,
    spares: u64,
    key: &[u8],
    value: &[u8],
) -> Result<(), OutOfMemory> {
    let mut place = pool.place(alloc, &Key::Queue)?;
    place.reserve_rows(alloc, spares)?;
    let is_fit = key.len() <= SPARE_KEY_LEN && value.len() <= SPARE_VALUE_LEN;
    if 0 < spares && is_fit && place.row(key).is_none() {
        place.put_spare(key, value);
    }
    Ok(())
}

// Whether the object has that row.
fn has_row(pool: &mut Pool, key: &[u8], value: &[u8]) -> bool {
    pool.find(&Key::Queue)
        .is_some_and(|place| place.row(key) == Some(value))
}

// Whether a spare row that was made ready becomes a row that stays, and without one nothing does.
fn is_put_spare(alloc: Global, pool: &mut Pool) -> Result<bool, OutOfMemory> {
    pool.place(alloc, &Key::Queue)?.reserve_rows(alloc, 1)?;
    let was_there = pool.find(&Key::Queue).is_some();
    put_spare(alloc, pool, 1, b"1", b"one")?;
    Ok(!was_there && has_row(pool, b"1", b"one") && pool.find(&Key::Changes).is_none())
}

#[test]
fn spare_rows_become_rows(rt: HostRuntime) -> Result<(), Fail> {
    let mut pool = Pool::new(rt.alloc(), 1, 16)?;
    let is_put = is_put_spare(rt.alloc(), &mut pool);
    drop(pool);
    assert!(rt; is_put?);
    Ok(())
}

// Spare rows have room for keys of 16 bytes and values of 1040.
#[test]
fn spare_rows_at_their_greatest(rt: HostRuntime) -> Result<(), Fail> {
    let value = repeated(rt.alloc(), b'v', 1_040)?;
    let mut pool = Pool::new(rt.alloc(), 1, 16)?;
    let put = put_spare(rt.alloc(), &mut pool, 1_000, b"sixteen letters.", &value);
    let has_row = has_row(&mut pool, b"sixteen letters.", &value);
    drop(pool);
    put?;
    assert!(rt; has_row);
    Ok(())
}

// Whether an object takes these bytes and gives them again.
fn keeps_bytes(
    alloc: Global,
    pool: &mut Pool,
    key: &Key,
    given: &[u8],
) -> Result<bool, OutOfMemory> {
    let mut place = pool.place(alloc, key)?;
    let is_put = place.put_bytes(given).is_ok();
    let kept = place.bytes(alloc, 0, given.len() as u64)?;
    Ok(is_put && place.size() == given.len() as u64 && kept.as_slice() == given)
}

// Whether it takes these attributes, and others of the same size over them.
fn keeps_attrs(
    alloc: Global,
    pool: &mut Pool,
    key: &Key,
    first: &[u8],
    second: &[u8],
) -> Result<bool, OutOfMemory> {
    let attrs = bytes(alloc, first)?;
    let mut place = pool.place(alloc, key)?;
    place.set_attrs(attrs);
    if place.attrs().len() != second.len() {
        return Ok(false);
    }
    place.write_attrs(0, second);
    Ok(place.attrs() == second)
}

fn longest_key(alloc: Global) -> Result<Key, Fail> {
    Ok(Key::Head {
        container: u64::MAX,
        name: Text::from_string(letters(alloc, 1024)?),
    })
}

// Whether a stripe of 4 MiB fills the pool, and gives its frames back.
fn holds_a_stripe(alloc: Global, pool: &mut Pool, key: &Key) -> Result<bool, OutOfMemory> {
    let stripe = repeated(alloc, b's', 4_194_304)?;
    let is_kept = keeps_bytes(alloc, pool, key, &stripe)?;
    let is_full = pool.free() == 0;
    pool.place(alloc, key)?.drop_object();
    Ok(is_kept && is_full && pool.free() == 1024)
}

// Whether attributes as 90 pairs of the longest names and values take are kept.
fn holds_attributes(alloc: Global, pool: &mut Pool, key: &Key) -> Result<bool, OutOfMemory> {
    let first = repeated(alloc, b'a', 36_000)?;
    let second = repeated(alloc, b'b', 36_000)?;
    keeps_attrs(alloc, pool, key, &first, &second)
}

#[test]
fn bytes_and_attributes_at_their_greatest(rt: HostRuntime) -> Result<(), Fail> {
    let key = longest_key(rt.alloc())?;
    let mut pool = Pool::new(rt.alloc(), 1024, 4096)?;
    let attributes = holds_attributes(rt.alloc(), &mut pool, &key);
    let stripe = holds_a_stripe(rt.alloc(), &mut pool, &key);
    drop(pool);
    drop(key);
    assert!(rt; attributes?);
    assert!(rt; stripe?);
    Ok(())
}

// Puts rows of 318 bytes under so many long keys.
fn put_long_keys(alloc: Global, pool: &mut Pool, count: u16) -> Result<(), OutOfMemory> {
    let value = repeated(alloc, b'v', 318)?;
    for number in 0..count {
        let key = long_key(alloc, number)?;
        let (key, value) = (
            bytes(alloc, key.as_slice())?,
            bytes(alloc, value.as_slice())?,
        );
        pool.place(alloc, &Key::Changes)?
            .put_row(alloc, key, value)?;
    }
    Ok(())
}

// Whether a row of 318 bytes takes a thousand tags of 16 bytes.
fn takes_a_thousand_tags(alloc: Global, pool: &mut Pool, key: &[u8]) -> Result<bool, OutOfMemory> {
    let tags = repeated(alloc, b't', 16_000)?;
    let mut place = pool.place(alloc, &Key::Changes)?;
    let Some(value) = place.row(key) else {
        return Ok(false);
    };
    if value.len() != 318 || tags.len() != 16_000 {
        return Ok(false);
    }
    place.widen_row(alloc, key, 16_318)?;
    place.splice_row(key, 318, 0, tags.as_slice());
    Ok(place.row(key).is_some_and(|value| value.len() == 16_318))
}

// Whether the last row goes alone, and the thousand before it together, and nothing is left.
fn are_taken(
    alloc: Global,
    pool: &mut Pool,
    first: &[u8],
    last: &[u8],
) -> Result<bool, OutOfMemory> {
    let mut place = pool.place(alloc, &Key::Changes)?;
    let is_taken = place.take_row(last);
    let taken = place.take_rows(first, last);
    Ok(is_taken && taken == 1_000 && !place.exists())
}

// Whether the first page of a thousand rows is full, and not the last one.
fn has_a_full_page(alloc: Global, pool: &mut Pool) -> Result<bool, OutOfMemory> {
    let page = pool.place(alloc, &Key::Changes)?.page(alloc, b"", 1_000)?;
    let is_so = page.rows.len() == 1_000 && !page.end;
    drop(page);
    Ok(is_so)
}

// Whether rows under names of 1024 bytes are given in a page of 1000, take a thousand tags, and go.
fn holds_long_rows(alloc: Global, pool: &mut Pool) -> Result<bool, OutOfMemory> {
    put_long_keys(alloc, pool, 1_001)?;
    let first = long_key(alloc, 0)?;
    let last = long_key(alloc, 1_000)?;
    let is_paged = has_a_full_page(alloc, pool)?;
    let is_tagged = takes_a_thousand_tags(alloc, pool, last.as_slice())?;
    let are_taken = are_taken(alloc, pool, first.as_slice(), last.as_slice())?;
    Ok(is_paged && is_tagged && are_taken)
}

#[test]
fn rows_at_their_greatest(rt: HostRuntime) -> Result<(), Fail> {
    let mut pool = Pool::new(rt.alloc(), 1, 16)?;
    let holds = holds_long_rows(rt.alloc(), &mut pool);
    drop(pool);
    assert!(rt; holds?);
    Ok(())
}
