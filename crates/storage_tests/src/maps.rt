ghost use Rattle.std.specs.Prelude.{◌<◌};

mod callers;
mod twin;
mod word;

use super::fillers::{long_key, repeated};
use omap_pages::{Omap, OutOfMemory, Page, SPARE_KEY_LEN, SPARE_VALUE_LEN};
use rgw_types::Bytes;
use std::alloc::Global;
use std::test::Fail;
use twin::Twin;

fn put(alloc: Global, omap: &mut Omap, key: &[u8], value: &[u8]) -> Result<(), OutOfMemory> {
    omap.put(
        Bytes::from_slice(alloc, key)?,
        Bytes::from_slice(alloc, value)?,
    )
}

// Whether the page has these keys of one letter each.
fn has_keys(page: &Page, keys: &[u8]) -> bool {
    let rows = page.rows.as_slice();
    if rows.len() != keys.len() {
        return false;
    }
    for (row, key) in rows.iter().zip(keys) {
        if row.0.as_slice() != [*key].as_slice() {
            return false;
        }
    }
    true
}

// Three rows with one letter each.
fn put_three(alloc: Global, omap: &mut Omap) -> Result<(), OutOfMemory> {
    put(alloc, omap, b"c", b"x")?;
    put(alloc, omap, b"a", b"x")?;
    put(alloc, omap, b"b", b"x")
}

// Whether the page behind the first of three rows is of these keys, and is the last one or is not.
fn is_page(
    alloc: Global,
    omap: &Omap,
    limit: u32,
    keys: &[u8],
    end: bool,
) -> Result<bool, OutOfMemory> {
    let page = omap.page(alloc, b"a", limit)?;
    let is_so = has_keys(&page, keys) && page.end == end;
    drop(page);
    Ok(is_so)
}

// Whether a page of one row is not the last one, and one of two rows is.
fn ends_with_the_last_row(alloc: Global, omap: &mut Omap) -> Result<bool, OutOfMemory> {
    put_three(alloc, omap)?;
    let first = is_page(alloc, omap, 1, b"b", false)?;
    let both = is_page(alloc, omap, 2, b"bc", true)?;
    Ok(first && both)
}

#[test]
fn pages_end_with_the_last_row(rt: HostRuntime) -> Result<(), Fail> {
    let mut omap = Omap::new(rt.alloc())?;
    let is_so = ends_with_the_last_row(rt.alloc(), &mut omap);
    drop(omap);
    assert!(rt; is_so?);
    Ok(())
}

// Whether a row of one letter has these two before it once they are put there.
fn is_put_before(omap: &mut Omap, key: &[u8]) -> Result<bool, OutOfMemory> {
    let Some(value) = omap.get(key) else {
        return Ok(false);
    };
    if value.len() != 1 {
        return Ok(false);
    }
    omap.widen(key, 4)?;
    omap.splice(key, 0, 0, b"yy");
    Ok(omap.get(key) == Some(b"yyx".as_slice()))
}

#[test]
fn splices_put_bytes_in(rt: HostRuntime) -> Result<(), Fail> {
    let mut omap = Omap::new(rt.alloc())?;
    let put = put(rt.alloc(), &mut omap, b"a", b"x");
    let is_put = is_put_before(&mut omap, b"a");
    drop(omap);
    put?;
    assert!(rt; is_put?);
    Ok(())
}

// Whether a row goes once, and the other two together.
fn are_removed(alloc: Global, omap: &mut Omap) -> Result<bool, OutOfMemory> {
    put_three(alloc, omap)?;
    let first = omap.remove(b"b");
    let again = omap.remove(b"b");
    let removed = omap.remove_range(b"a", b"d");
    Ok(first && !again && removed == 2 && omap.is_empty())
}

#[test]
fn removed_rows_are_gone(rt: HostRuntime) -> Result<(), Fail> {
    let mut omap = Omap::new(rt.alloc())?;
    let are_removed = are_removed(rt.alloc(), &mut omap);
    drop(omap);
    assert!(rt; are_removed?);
    Ok(())
}

// Whether a key that is not there is there once a spare row has it.
fn is_put_spare(omap: &mut Omap, key: &[u8], value: &[u8]) -> Result<bool, OutOfMemory> {
    if omap.get(key).is_some() || key.len() > SPARE_KEY_LEN || value.len() > SPARE_VALUE_LEN {
        return Ok(false);
    }
    omap.reserve(1)?;
    omap.put_spare(key, value);
    Ok(omap.get(key) == Some(value))
}

#[test]
fn spare_rows_become_rows(rt: HostRuntime) -> Result<(), Fail> {
    let mut omap = Omap::new(rt.alloc())?;
    let is_put = is_put_spare(&mut omap, b"d", b"z");
    drop(omap);
    assert!(rt; is_put?);
    Ok(())
}

// Spare rows have room for keys of 16 bytes and values of 1040.
#[test]
fn spare_rows_at_their_greatest(rt: HostRuntime) -> Result<(), Fail> {
    let value = repeated(rt.alloc(), b'v', 1_040)?;
    let mut omap = Omap::new(rt.alloc())?;
    let reserved = omap.reserve(1_000);
    let is_put = is_put_spare(&mut omap, b"sixteen letters.", &value);
    drop(omap);
    reserved?;
    assert!(rt; is_put?);
    Ok(())
}

// Whether the keys of the page are every second number from the first on.
fn are_every_second(page: &Page, first: u16) -> bool {
    let mut next = first;
    for row in page.rows.as_slice() {
        if row.0.as_slice() != next.to_be_bytes().as_slice() {
            return false;
        }
        next = next.wrapping_add(2);
    }
    true
}

// Puts the numbers below 10,000 from the last to the first, and says how many even ones are removed then.
fn put_and_remove(alloc: Global, omap: &mut Omap) -> Result<u16, OutOfMemory> {
    for number in (0..10_000_u16).rev() {
        put(alloc, omap, &number.to_be_bytes(), b"")?;
    }
    let mut removed = 0;
    for half in 0..5_000_u16 {
        removed = u16::from(omap.remove(&(2 * half).to_be_bytes())).saturating_add(removed);
    }
    Ok(removed)
}

// Whether the page of the 100 odd numbers behind 200 times the count is so, and is the last of 50.
fn is_odd_page(alloc: Global, omap: &Omap, count: u16) -> Result<bool, OutOfMemory>
    requires { count < 50 }
{
    let page = omap.page(alloc, &(200 * count).to_be_bytes(), 100)?;
    let is_full = page.rows.len() == 100 && are_every_second(&page, 200 * count + 1);
    let is_so = is_full && page.end == (count == 49);
    drop(page);
    Ok(is_so)
}

// Whether each page of the odd numbers is so.
fn are_odd_pages(alloc: Global, omap: &Omap) -> Result<bool, OutOfMemory> {
    for count in 0..50_u16 {
        if !is_odd_page(alloc, omap, count)? {
            return Ok(false);
        }
    }
    Ok(true)
}

#[test]
fn ten_thousand_rows_in_falling_order(rt: HostRuntime) -> Result<(), Fail> {
    let mut omap = Omap::new(rt.alloc())?;
    let removed = put_and_remove(rt.alloc(), &mut omap);
    let are_odd = are_odd_pages(rt.alloc(), &omap);
    drop(omap);
    assert_eq!(rt; removed?, 5_000);
    assert!(rt; are_odd?);
    Ok(())
}

// Whether the map and the vector agree at each of a hundred steps.
fn take_steps(twin: &mut Twin) -> Result<bool, OutOfMemory> {
    for _ in 0..100 {
        if !twin.step()? {
            return Ok(false);
        }
    }
    Ok(true)
}

// The most rows after a hundred steps, a hundred times over, where map and vector agree all along.
fn most_rows(twin: &mut Twin) -> Result<Option<usize>, OutOfMemory> {
    let mut most_rows = 0;
    for _ in 0..100 {
        if !take_steps(twin)? || !twin.agrees()? {
            return Ok(None);
        }
        most_rows = twin.len().max(most_rows);
    }
    Ok(Some(most_rows))
}

#[test]
fn calls_agree_with_a_sorted_vector(rt: HostRuntime) -> Result<(), Fail> {
    let mut twin = Twin::new(rt.alloc(), 5)?;
    let most_rows = most_rows(&mut twin);
    drop(twin);
    assert!(rt; most_rows?.is_some_and(|rows| rows > 256));
    Ok(())
}

// Whether a row of 318 bytes takes a thousand tags of 16 bytes.
fn takes_a_thousand_tags(alloc: Global, omap: &mut Omap, key: &[u8]) -> Result<bool, OutOfMemory> {
    let Some(value) = omap.get(key) else {
        return Ok(false);
    };
    if value.len() != 318 {
        return Ok(false);
    }
    let tags = repeated(alloc, b't', 16_000)?;
    omap.widen(key, 16_318)?;
    omap.splice(key, 318, 0, tags.as_slice());
    Ok(omap.get(key).is_some_and(|value| value.len() == 16_318))
}

// Puts rows of 318 bytes under so many long keys.
fn put_long_keys(alloc: Global, omap: &mut Omap, count: u16) -> Result<(), OutOfMemory> {
    let value = repeated(alloc, b'v', 318)?;
    for number in 0..count {
        let key = long_key(alloc, number)?;
        put(alloc, omap, key.as_slice(), value.as_slice())?;
    }
    Ok(())
}

// Whether the first page of a thousand rows is full, and not the last one.
fn has_a_full_page(alloc: Global, omap: &Omap) -> Result<bool, OutOfMemory> {
    let page = omap.page(alloc, b"", 1_000)?;
    let is_so = page.rows.len() == 1_000 && !page.end;
    drop(page);
    Ok(is_so)
}

// Whether rows under keys of 1024 bytes are given in a page of 1000, take a thousand tags, and go.
fn holds_long_rows(alloc: Global, omap: &mut Omap) -> Result<bool, OutOfMemory> {
    put_long_keys(alloc, omap, 1_001)?;
    let first = long_key(alloc, 0)?;
    let last = long_key(alloc, 1_000)?;
    let is_paged = has_a_full_page(alloc, omap)?;
    let is_tagged = takes_a_thousand_tags(alloc, omap, last.as_slice())?;
    let removed = omap.remove_range(first.as_slice(), last.as_slice());
    omap.clear();
    Ok(is_paged && is_tagged && removed == 1_000 && omap.is_empty())
}

#[test]
fn each_call_at_its_greatest_sizes(rt: HostRuntime) -> Result<(), Fail> {
    let mut omap = Omap::new(rt.alloc())?;
    let holds = holds_long_rows(rt.alloc(), &mut omap);
    drop(omap);
    assert!(rt; holds?);
    Ok(())
}
