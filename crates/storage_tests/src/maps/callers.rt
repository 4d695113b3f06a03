// What callers prove of the map from its contracts alone.
ghost use Rattle.std.specs.Prelude.{◌≡◌, ◌≢◌, ◌+◌, ◌≤◌, [], length, false, Some, None, IsSome, IfOk, OnOk, OnErr};
ghost use Rattle.std.specs.Option.{ForSome};
ghost use Rattle.std.specs.List.{splice};
ghost use Rattle.omap_pages.specs.Rows.{value_at};

use omap_pages::{Omap, OutOfMemory, SPARE_KEY_LEN};
use rgw_types::Bytes;
use std::alloc::Global;

// What is put is there.
fn put_then_get(
    alloc: Global,
    omap: &mut Omap,
    key: &[u8],
    value: Bytes,
) -> Result<Bytes, OutOfMemory>
    ensures { IfOk result (λ found. found ≡ value) }
{
    omap.put(Bytes::from_slice(alloc, key)?, value)?;
    match omap.get(key) {
        Some(found) => Ok(Bytes::from_slice(alloc, found)?),
        None => unreachable!(),
    }
}

// What is removed is gone, and other keys keep their values.
fn remove_twice(omap: &mut Omap, key: &[u8], other: &[u8]) -> bool
    requires { other.now ≢ key.now }
    ensures again { result ≡ false }
    ensures other { value_at omap.new.rows other.now ≡ value_at omap.old.rows other.now }
{
    let _ = omap.remove(key);
    omap.remove(key)
}

// A row grows within the room that was made for it.
fn prepend(omap: &mut Omap, key: &[u8], bytes: &[u8]) -> Result<(), OutOfMemory>
    requires there { IsSome (value_at omap.old.rows key.now) }
    requires short { ForSome (value_at omap.old.rows key.now) (λ v.
        length v + length bytes.now ≤ 64) }
    ensures ok { OnOk result (ForSome (value_at omap.old.rows key.now) (λ v.
        value_at omap.new.rows key.now ≡ Some (splice v 0 0 bytes.now))) }
    ensures err { OnErr result (omap.new ≡ omap.old) }
{
    omap.widen(key, 64)?;
    omap.splice(key, 0, 0, bytes);
    Ok(())
}

// Two spare rows are enough for two new keys, and the room made before is still there.
fn put_two_spares(omap: &mut Omap, first: &[u8], second: &[u8]) -> Result<(), OutOfMemory>
    requires apart { second.now ≢ first.now }
    requires first_fits { length first.now ≤ SPARE_KEY_LEN }
    requires second_fits { length second.now ≤ SPARE_KEY_LEN }
    requires first_absent { value_at omap.old.rows first.now ≡ None }
    requires second_absent { value_at omap.old.rows second.now ≡ None }
    ensures first { OnOk result (value_at omap.new.rows first.now ≡ Some []) }
    ensures second { OnOk result (value_at omap.new.rows second.now ≡ Some []) }
{
    omap.reserve(2)?;
    omap.put_spare(first, &[]);
    omap.put_spare(second, &[]);
    Ok(())
}
