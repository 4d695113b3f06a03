ghost use Rattle.std.specs.Prelude.{IsSome};
ghost use Rattle.std.specs.Map.{lookup};
ghost use Rattle.object_pool.specs.Objects.{HasFrameSum, is_key};

use crate::error::NoSpace;
use crate::pool::Pool;
use omap_pages::{OutOfMemory, Page};
use rgw_types::{Bytes, Key};
use std::alloc::Global;

/// One object of a pool, to read and to change. What it becomes is kept in the pool once the place is
/// given up, and no other object changes.
#[derive(Drop)]
pub struct Place<'a> {
    pool: &'a mut Pool,
    key: &'a Key,
    // Where the pool keeps the object.
    number: usize,
    ghost there: { IsSome (lookup (is_key key.now) pool.now.slots) },
    ghost sum: { HasFrameSum pool.now },
}

impl Pool {
    ghost use Rattle.std.specs.Prelude.{◌≡◌, ◌↔◌, IfOk, IfSome, IsOk, IsTrue};
    ghost use Rattle.std.specs.Borrow.{sem};
    ghost use Rattle.object_pool.specs.Objects.{object_at, exists};
    ghost use Rattle.object_pool.specs.Places.{IsPlaceIn, borrow_of, pool_of, rests_if_none, rests_if_refused};

    /// The place of a key, whether its object exists or not. A key that has none yet is copied. It
    /// fails only for want of memory, and then the pool is as it was; it takes none where the object exists.
    pub fn place<'a>(&'a mut self, alloc: Global, key: &'a Key) -> Result<Place<'a>, OutOfMemory>
        ensures* unchanged_at_err { sem 𝓛 (rests_if_refused self.entry result) }
        ensures same_borrow { IfOk result (λ place. borrow_of place ≡ self.entry.ghost_name) }
        ensures ok { IfOk result (λ place. IsPlaceIn self.old key.now (object_at self.old key.now) place) }
        ensures there { IsTrue (exists (object_at self.old key.now)) → IsOk result }
    {
        let number = self.make_ready(alloc, key)?;
        Ok(Place {
            pool: self,
            key,
            number,
        })
    }

    /// The place of a key whose object exists. Takes no memory.
    pub fn find<'a>(&'a mut self, key: &'a Key) -> Option<Place<'a>>
        ensures* unchanged_at_none { sem 𝓛 (rests_if_none self.entry result) }
        ensures found { IsSome result ↔ IsTrue (exists (object_at self.old key.now)) }
        ensures same_borrow { IfSome result (λ place. borrow_of place ≡ self.entry.ghost_name) }
        ensures some { IfSome result (λ place. IsPlaceIn self.old key.now (object_at self.old key.now) place) }
        ensures pool { IfSome result (λ place. pool_of place ≡ self.old) }
    {
        let number = self.number_of(key)?;
        if !self.has_object(number, key) {
            return None;
        }
        Some(Place {
            pool: self,
            key,
            number,
        })
    }
}

impl Place<'_> {
    ghost use Rattle.std.specs.Prelude.{◌≡◌, ◌↔◌, ◌+◌, ◌-◌, ◌^◌, ◌<◌, ◌≤◌, IfErr, IfNone, IfOk, IfSome, IsErr, IsOk, IsSome, IsTrue, None, OnErr, OnOk, Some, drop, is_some, length, max, min, option_map, take};
    ghost use Rattle.std.specs.Bool.{OnFalse};
    ghost use Rattle.std.specs.Int.{div_ceil};
    ghost use Rattle.std.specs.List.{splice};
    ghost use Rattle.std.specs.Option.{ForSome};
    ghost use Rattle.omap_pages.specs.Contents.{room_at, KeepsRooms, KeepsOtherRooms, KeepsRoomsOutside};
    ghost use Rattle.omap_pages.specs.Rows as rows;
    ghost use Rattle.omap_pages.specs.Rows.{IsInOrder, value_at, with_row, without_row, rows_after, rows_within, rows_outside, HasNoneWithin, KeepsOutside};
    ghost use Rattle.object_pool.specs.Objects.{dropped, exists, frames_of};
    ghost use Rattle.object_pool.specs.Places.{Becomes, Changes, ChangesRows, Readies, Stays, object_of, pool_of, rows_of};

    /// Whether the object has bytes, attributes or rows.
    pub fn exists(&self) -> bool
        ensures { result ≡ exists (object_of self.now) }
    {
        self.pool.has_object(self.number, self.key)
    }

    /// How many bytes the object has.
    pub fn size(&self) -> u64
        ensures { result ≡ length (object_of self.now).bytes }
    {
        self.pool.size(self.number, self.key)
    }

    /// A copy of `count` bytes from `start` on, or of as many of them as there are.
    pub fn bytes(&self, alloc: Global, start: u64, count: u64) -> Result<Bytes, OutOfMemory>
        ensures { IfOk result (λ bytes. bytes ≡ take count (drop start (object_of self.now).bytes)) }
    {
        self.pool.bytes(alloc, self.number, self.key, start, count)
    }

    /// Puts bytes in the place of those that the object has. The frames for them are taken before the
    /// old ones are given back. Takes no memory.
    pub fn put_bytes(&mut self, bytes: &[u8]) -> Result<(), NoSpace>
        // It fails exactly where fewer frames are free than the bytes need, and then nothing changes.
        ensures refused { IsErr result ↔ ((pool_of self.old).free < div_ceil (length bytes.now) (pool_of self.old).frame) }
        ensures told { IfErr result (λ e. e ≡ record { free = (pool_of self.old).free; needed = min (div_ceil (length bytes.now) (pool_of self.old).frame) (2 ^ 32 - 1) }) }
        ensures err { OnErr result (Stays self.old self.new) }
        ensures ok { OnOk result (Becomes self.old self.new (record (object_of self.old) { bytes = bytes.now })
            ((pool_of self.old).free - div_ceil (length bytes.now) (pool_of self.old).frame + frames_of (pool_of self.old).frame (object_of self.old))) }
    {
        let done = self.pool.put_bytes(self.number, self.key, bytes);
        self.pool.note_frame(self.number, self.key);
        done
    }

    /// The attributes, lent.
    pub fn attrs(&self) -> &[u8]
        ensures { result.now ≡ (object_of self.now).attrs }
    {
        self.pool.parts(self.number, self.key).attrs()
    }

    /// Puts these attributes in the place of those that there are. Takes no memory.
    pub fn set_attrs(&mut self, attrs: Bytes)
        ensures { Changes self.old self.new (record (object_of self.old) { attrs = attrs }) }
    {
        self.pool.parts_mut(self.number, self.key).set_attrs(attrs);
    }

    /// Writes bytes over those of the attributes from `start` on. Takes no memory.
    pub fn write_attrs(&mut self, start: u64, bytes: &[u8])
        requires { start + length bytes.now ≤ length (object_of self.old).attrs }
        ensures { Changes self.old self.new (record (object_of self.old) { attrs = splice (object_of self.old).attrs start (start + length bytes.now) bytes.now }) }
    {
        self.pool
            .parts_mut(self.number, self.key)
            .write_attrs(start as usize, bytes);
    }

    /// The value of the row at the key.
    pub fn row(&self, key: &[u8]) -> Option<&[u8]>
        ensures value { option_map (λ value. value.now) result ≡ value_at (rows_of self.now).rows key.now }
        ensures fits { IfSome result (λ value. length value.now ≤ room_at (rows_of self.now).rooms key.now) }
        ensures no_room { IfNone result (room_at (rows_of self.now).rooms key.now ≡ 0) }
        ensures in_order { IsInOrder (rows_of self.now).rows }
    {
        self.pool.parts(self.number, self.key).rows().get(key)
    }

    /// Puts the value at the key of a row, in the place of the one that was there.
    /// After an error nothing has changed.
    #[tactic(auto, using(crate::proofs::PlaceLemmas::rows_now))]
    pub fn put_row(&mut self, _alloc: Global, key: Bytes, value: Bytes) -> Result<(), OutOfMemory>
        ensures change { ChangesRows self.old self.new }
        ensures rows { OnOk result ((rows_of self.new).rows ≡ with_row (rows_of self.old).rows key value) }
        ensures at_key { OnOk result (value_at (rows_of self.new).rows key ≡ Some value) }
        ensures others { OnOk result (rows.KeepsOthers (rows_of self.old).rows (rows_of self.new).rows key) }
        ensures fits { OnOk result (length value ≤ room_at (rows_of self.new).rooms key) }
        ensures other_rooms { OnOk result (KeepsOtherRooms (rows_of self.old) (rows_of self.new) key) }
        ensures spare { (rows_of self.new).spare ≡ (rows_of self.old).spare }
        ensures err { OnErr result (Stays self.old self.new) }
        ensures in_order { IsInOrder (rows_of self.new).rows }
    {
        self.pool
            .parts_mut(self.number, self.key)
            .rows_mut()
            .put(key, value)
    }

    /// Removes the row at the key, and says whether it was there. Takes no memory.
    #[tactic(auto, using(crate::proofs::PlaceLemmas::rows_now))]
    pub fn take_row(&mut self, key: &[u8]) -> bool
        ensures change { ChangesRows self.old self.new }
        ensures found { result ≡ is_some (value_at (rows_of self.old).rows key.now) }
        ensures rows { (rows_of self.new).rows ≡ without_row (rows_of self.old).rows key.now }
        ensures at_key { value_at (rows_of self.new).rows key.now ≡ None }
        ensures others { rows.KeepsOthers (rows_of self.old).rows (rows_of self.new).rows key.now }
        ensures other_rooms { KeepsOtherRooms (rows_of self.old) (rows_of self.new) key.now }
        ensures spare { (rows_of self.new).spare ≡ (rows_of self.old).spare }
        ensures absent { OnFalse result (rows_of self.new ≡ rows_of self.old) }
        ensures in_order { IsInOrder (rows_of self.new).rows }
    {
        self.pool
            .parts_mut(self.number, self.key)
            .rows_mut()
            .remove(key)
    }

    /// Removes the rows whose keys are at least `from` and below `to`, and says how many they were.
    /// Takes no memory.
    #[tactic(auto, using(crate::proofs::PlaceLemmas::rows_now))]
    pub fn take_rows(&mut self, from: &[u8], to: &[u8]) -> u64
        ensures change { ChangesRows self.old self.new }
        ensures count { result ≡ length (rows_within (rows_of self.old).rows from.now to.now) }
        ensures rows { (rows_of self.new).rows ≡ rows_outside (rows_of self.old).rows from.now to.now }
        ensures within { HasNoneWithin (rows_of self.new).rows from.now to.now }
        ensures outside { KeepsOutside (rows_of self.old).rows (rows_of self.new).rows from.now to.now }
        ensures rooms_outside { KeepsRoomsOutside (rows_of self.old) (rows_of self.new) from.now to.now }
        ensures spare { (rows_of self.new).spare ≡ (rows_of self.old).spare }
        ensures none { result ≡ 0 → rows_of self.new ≡ rows_of self.old }
        ensures in_order { IsInOrder (rows_of self.new).rows }
    {
        self.pool
            .parts_mut(self.number, self.key)
            .rows_mut()
            .remove_range(from, to)
    }

    /// Makes the room of the row at the key `room` bytes, where it is lower, so that
    /// [`Place::splice_row`] can make its value as long; where it is as great already no memory is
    /// taken. After an error nothing has changed.
    #[tactic(auto, using(crate::proofs::PlaceLemmas::rows_now))]
    pub fn widen_row(&mut self, _alloc: Global, key: &[u8], room: u64) -> Result<(), OutOfMemory>
        requires { IsSome (value_at (rows_of self.old).rows key.now) }
        ensures readied { Readies self.old self.new }
        ensures ok { OnOk result (room ≤ room_at (rows_of self.new).rooms key.now) }
        ensures exact { OnOk result (
            room_at (rows_of self.new).rooms key.now ≡ max (room_at (rows_of self.old).rooms key.now) room) }
        ensures enough { room ≤ room_at (rows_of self.old).rooms key.now → IsOk result }
        ensures spare { (rows_of self.new).spare ≡ (rows_of self.old).spare }
        ensures err { OnErr result (Stays self.old self.new) }
    {
        self.pool
            .parts_mut(self.number, self.key)
            .rows_mut()
            .widen(key, room)
    }

    /// Puts `bytes` in the place of the `count` bytes from `start` of the value at the key. The new
    /// value fits the row's room. Takes no memory.
    #[tactic(auto, using(crate::proofs::PlaceLemmas::rows_now))]
    pub fn splice_row(&mut self, key: &[u8], start: u64, count: u64, bytes: &[u8])
        requires there { IsSome (value_at (rows_of self.old).rows key.now) }
        requires range { ForSome (value_at (rows_of self.old).rows key.now) (λ value.
            start + count ≤ length value) }
        requires fits { ForSome (value_at (rows_of self.old).rows key.now) (λ value.
            length value + length bytes.now ≤ room_at (rows_of self.old).rooms key.now + count) }
        ensures change { ChangesRows self.old self.new }
        ensures rows { ForSome (value_at (rows_of self.old).rows key.now) (λ value.
            (rows_of self.new).rows
            ≡ with_row (rows_of self.old).rows key.now (splice value start (start + count) bytes.now)) }
        ensures at_key { ForSome (value_at (rows_of self.old).rows key.now) (λ value.
            value_at (rows_of self.new).rows key.now
            ≡ Some (splice value start (start + count) bytes.now)) }
        ensures others { rows.KeepsOthers (rows_of self.old).rows (rows_of self.new).rows key.now }
        ensures rooms { KeepsRooms (rows_of self.old) (rows_of self.new) }
        ensures spare { (rows_of self.new).spare ≡ (rows_of self.old).spare }
        ensures in_order { IsInOrder (rows_of self.new).rows }
    {
        self.pool
            .parts_mut(self.number, self.key)
            .rows_mut()
            .splice(key, start, count, bytes);
    }

    /// Makes the number of spare rows `count`, where it is lower; where there are as many already no
    /// memory is taken. They stay ready while the object exists or the place is held. After an error
    /// nothing has changed.
    #[tactic(auto, using(crate::proofs::PlaceLemmas::rows_now))]
    pub fn reserve_rows(&mut self, _alloc: Global, count: u64) -> Result<(), OutOfMemory>
        ensures readied { Readies self.old self.new }
        ensures ok { OnOk result (count ≤ (rows_of self.new).spare) }
        ensures exact { OnOk result ((rows_of self.new).spare ≡ max (rows_of self.old).spare count) }
        ensures enough { count ≤ (rows_of self.old).spare → IsOk result }
        ensures err { OnErr result (Stays self.old self.new) }
    {
        self.pool
            .parts_mut(self.number, self.key)
            .rows_mut()
            .reserve(count)
    }

    /// Makes a spare row the row of a key that is not there. The key has at most 16 bytes and the
    /// value at most 1040. Takes no memory.
    #[tactic(auto, using(crate::proofs::PlaceLemmas::rows_now))]
    pub fn put_spare(&mut self, key: &[u8], value: &[u8])
        requires spare { 0 < (rows_of self.old).spare }
        requires absent { value_at (rows_of self.old).rows key.now ≡ None }
        requires key_fits { length key.now ≤ 16 }
        requires value_fits { length value.now ≤ 1040 }
        ensures change { ChangesRows self.old self.new }
        ensures rows { (rows_of self.new).rows ≡ with_row (rows_of self.old).rows key.now value.now }
        ensures at_key { value_at (rows_of self.new).rows key.now ≡ Some value.now }
        ensures others { rows.KeepsOthers (rows_of self.old).rows (rows_of self.new).rows key.now }
        ensures fits { length value.now ≤ room_at (rows_of self.new).rooms key.now }
        ensures rooms { KeepsRooms (rows_of self.old) (rows_of self.new) }
        ensures spare { (rows_of self.new).spare + 1 ≡ (rows_of self.old).spare }
        ensures in_order { IsInOrder (rows_of self.new).rows }
    {
        self.pool
            .parts_mut(self.number, self.key)
            .rows_mut()
            .put_spare(key, value);
    }

    /// Copies of the first rows whose keys are above `after`, at most `limit` of them, and whether
    /// no row follows these.
    pub fn page(&self, alloc: Global, after: &[u8], limit: u32) -> Result<Page, OutOfMemory>
        ensures rows { IfOk result (λ page.
            page.rows ≡ take limit (rows_after (rows_of self.now).rows after.now)) }
        ensures end { IfOk result (λ page.
            IsTrue page.end ↔ (length (rows_after (rows_of self.now).rows after.now) ≤ limit)) }
        ensures in_order { IfOk result (λ page. IsInOrder page.rows) }
    {
        self.pool
            .parts(self.number, self.key)
            .rows()
            .page(alloc, after, limit)
    }

    /// Drops the bytes, the attributes and the rows, so that the object does not exist. Its frames are
    /// free again. Spare rows stay ready for as long as the place is held. Takes no memory.
    pub fn drop_object(&mut self)
        ensures { Becomes self.old self.new (dropped (object_of self.old))
            ((pool_of self.old).free + frames_of (pool_of self.old).frame (object_of self.old)) }
    {
        self.pool.drop_object(self.number, self.key);
    }
}
