// What callers prove of a pool from its contracts alone.
ghost use Rattle.std.specs.Prelude.{◌≡◌, ◌+◌, ◌-◌, ◌↔◌, IsErr, IfOk, OnOk, OnErr, IsTrue, ◌<◌, length};
ghost use Rattle.std.specs.Int.{div_ceil};
ghost use Rattle.object_pool.specs.Objects.{HasFrameSum, KeepsAll, KeepsOthers, exists, nothing, object_at, settled};
ghost use Rattle.object_pool.specs.Places.{Stays, borrow_of, key_of, object_of, pool_of, rows_of};

use object_pool::{NoSpace, OutOfMemory, Place, Pool};
use rgw_types::{Bytes, Key};
use std::alloc::Global;

// What an object becomes in its place is what the pool has once the place is given up.
fn put_attrs(alloc: Global, pool: &mut Pool, key: &Key, attrs: Bytes) -> Result<(), OutOfMemory>
    ensures ok { OnOk result (object_at pool.new key.now ≡ settled (record (object_at pool.old key.now) { attrs = attrs })) }
    ensures others { OnOk result (KeepsOthers pool.old pool.new key.now) }
    ensures sum { OnOk result (HasFrameSum pool.new) }
    ensures err { OnErr result (KeepsAll pool.old pool.new) }
{
    let mut place = pool.place(alloc, key)?;
    place.set_attrs(attrs);
    Ok(())
}

// Two changes of one place, of which the first may be refused.
fn replace(place: &mut Place<'_>, attrs: Bytes, bytes: &[u8]) -> Result<(), NoSpace>
    ensures same_borrow { borrow_of place.new ≡ borrow_of place.old }
    ensures key { key_of place.new ≡ key_of place.old }
    ensures refused { IsErr result ↔ ((pool_of place.old).free < div_ceil (length bytes.now) (pool_of place.old).frame) }
    ensures ok { OnOk result (object_of place.new ≡ record (object_of place.old) { bytes = bytes.now; attrs = attrs }) }
    ensures others { KeepsOthers (pool_of place.old) (pool_of place.new) (key_of place.old) }
    ensures err { OnErr result (Stays place.old place.new) }
{
    place.put_bytes(bytes)?;
    place.set_attrs(attrs);
    Ok(())
}

// An object is dropped where there is one.
fn drop_if_there(pool: &mut Pool, key: &Key) -> bool
    ensures found { result ≡ exists (object_at pool.old key.now) }
    ensures gone { object_at pool.new key.now ≡ nothing }
    ensures others { KeepsOthers pool.old pool.new key.now }
{
    match pool.find(key) {
        Some(mut place) => {
            place.drop_object();
            true
        }
        None => false,
    }
}

// A row that is put where none was, and then taken, leaves the rows as they were.
#[tactic(auto, using(crate::proofs::RowLemmas::put_then_taken))]
fn put_and_take(
    alloc: Global,
    place: &mut Place<'_>,
    key: Bytes,
    value: Bytes,
) -> Result<(), OutOfMemory>
    ensures { OnOk result ((rows_of place.new).rows ≡ (rows_of place.old).rows) }
{
    if place.row(key.as_slice()).is_some() {
        return Ok(());
    }
    let again = Bytes::from_slice(alloc, key.as_slice())?;
    place.put_row(alloc, key, value)?;
    place.take_row(again.as_slice());
    Ok(())
}
