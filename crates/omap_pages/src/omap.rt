ghost use Rattle.std.specs.Prelude.{◌≡◌, ◌≢◌, ◌↔◌, ℕ, ◌+◌, ◌<◌, ◌≤◌, List, [], take, length, max, IsTrue, IsSome, IsOk, IfSome, IfNone, IfOk, OnOk, OnErr, is_some, option_map, Some, None, false};
ghost use Rattle.std.specs.Bool.{OnFalse};
ghost use Rattle.std.specs.List.{splice};
ghost use Rattle.std.specs.Option.{ForSome};
ghost use Rattle.omap_pages.specs.Contents.{room_at, KeepsRooms, KeepsOtherRooms, KeepsRoomsOutside, Readies};
ghost use Rattle.omap_pages.specs.Rows.{IsInOrder, value_at, with_row, without_row, rows_after, rows_within, rows_outside, KeepsOthers, HasNoneWithin, KeepsOutside};

use crate::error::OutOfMemory;
use crate::leaf::Leaf;
use crate::leaves::Leaves;
use crate::lookup::{gap_for, place_of, search, start_after, start_from};
use crate::page::Page;
use crate::row::Row;
use crate::spares::{SPARE_KEY_LEN, SPARE_VALUE_LEN, Spares};
use rgw_types::Bytes;
use std::alloc::Global;
use std::marker::Model;

/// An ordered map from keys to values, both bytes. Keys are compared byte by byte, and a key is
/// below those that it begins.
///
/// Each row has a room, in bytes: up to that length [`Omap::splice`] changes its value with no
/// memory taken. The room is at least the value's length, and only a [`Omap::put`] of its key may
/// lower it. The map also has a number of spare rows, which [`Omap::reserve`] raises and
/// [`Omap::put_spare`] uses up with no memory taken; no other call changes it.
///
/// Contracts see the rows in the order of their keys, the room at each key, and the number of
/// spare rows.
#[derive(Debug, Drop)]
pub struct Omap {
    leaves: Leaves,
    spares: Spares,
}

impl Model for Omap {
    ghost use Rattle.std.specs.Prelude.{◌≤◌, IsTrue};
    ghost use Rattle.std.specs.FinMap.Entries.{is_sorted};
    ghost use Rattle.omap_pages.specs.Cells.{contents_of};
    ghost use Rattle.omap_pages.specs.Contents.{Contents};
    ghost use Rattle.omap_pages.specs.Leaves.{flat};
    ghost use Rattle.omap_pages.specs.Rows.{key_cmp};

    ghost Value = { Contents };

    ghost view = { λ omap. contents_of (flat omap.leaves.leaves) omap.spares };

    ghost invariant = { λ omap. IsTrue (is_sorted key_cmp (flat omap.leaves.leaves))
        × (omap.spares ≤ omap.leaves.free) };
}

impl Omap {
    /// An empty map with no spare rows.
    pub fn new(alloc: Global) -> Result<Omap, OutOfMemory>
        ensures { IfOk result (λ omap. omap ≡ record { rows = []; rooms = []; spare = 0 }) }
    {
        Ok(Omap {
            leaves: Leaves::new(alloc),
            spares: Spares::new(alloc),
        })
    }

    /// Whether there are no rows.
    pub fn is_empty(&self) -> bool
        ensures { IsTrue result ↔ (self.now.rows ≡ []) }
    {
        self.leaves.is_empty()
    }

    /// The value at the key.
    pub fn get(&self, key: &[u8]) -> Option<&[u8]>
        ensures value { option_map (λ value. value.now) result ≡ value_at self.now.rows key.now }
        ensures fits { IfSome result (λ value. length value.now ≤ room_at self.now.rooms key.now) }
        ensures no_room { IfNone result (room_at self.now.rooms key.now ≡ 0) }
        ensures in_order { IsInOrder self.now.rows }
    {
        match search(self.leaves.as_slice(), key) {
            Ok(place) => Some(self.leaves.row(place).value()),
            Err(_) => None,
        }
    }

    /// Puts the value at the key, in the place of the one that was there.
    /// After an error nothing has changed.
    pub fn put(&mut self, key: Bytes, value: Bytes) -> Result<(), OutOfMemory>
        ensures rows { OnOk result (self.new.rows ≡ with_row self.old.rows key value) }
        ensures at_key { OnOk result (value_at self.new.rows key ≡ Some value) }
        ensures others { OnOk result (KeepsOthers self.old.rows self.new.rows key) }
        ensures fits { OnOk result (length value ≤ room_at self.new.rooms key) }
        ensures other_rooms { OnOk result (KeepsOtherRooms self.old self.new key) }
        ensures spare { self.new.spare ≡ self.old.spare }
        ensures err { OnErr result (self.new ≡ self.old) }
        ensures in_order { IsInOrder self.new.rows }
    {
        match search(self.leaves.as_slice(), key.as_slice()) {
            Ok(place) => self.leaves.row_mut(place).set_value(value.into_vec()),
            Err(place) => {
                let row = Row::new(key.into_vec(), value.into_vec());
                if self.leaves.has_room(place) {
                    self.leaves.insert(place, row);
                } else {
                    self.leaves.reserve(1 + self.spares.len())?;
                    let leaf = Leaf::new(self.leaves.allocator())?;
                    self.leaves.insert_with(place, row, leaf);
                }
            }
        }
        Ok(())
    }

    /// Removes all rows. Takes no memory.
    pub fn clear(&mut self)
        ensures { self.new ≡ record { rows = []; rooms = []; spare = self.old.spare } }
    {
        self.leaves.clear();
    }

    /// Removes the row at the key, and says whether it was there. Takes no memory.
    pub fn remove(&mut self, key: &[u8]) -> bool
        ensures found { result ≡ is_some (value_at self.old.rows key.now) }
        ensures rows { self.new.rows ≡ without_row self.old.rows key.now }
        ensures at_key { value_at self.new.rows key.now ≡ None }
        ensures others { KeepsOthers self.old.rows self.new.rows key.now }
        ensures other_rooms { KeepsOtherRooms self.old self.new key.now }
        ensures spare { self.new.spare ≡ self.old.spare }
        ensures absent { OnFalse result (self.new ≡ self.old) }
        ensures in_order { IsInOrder self.new.rows }
    {
        match search(self.leaves.as_slice(), key) {
            Ok(place) => {
                self.leaves.remove(place);
                true
            }
            Err(_) => false,
        }
    }

    /// Removes the rows whose keys are at least `from` and below `to`, and says how many they were.
    /// Takes no memory.
    pub fn remove_range(&mut self, from: &[u8], to: &[u8]) -> u64
        ensures count { result ≡ length (rows_within self.old.rows from.now to.now) }
        ensures rows { self.new.rows ≡ rows_outside self.old.rows from.now to.now }
        ensures within { HasNoneWithin self.new.rows from.now to.now }
        ensures outside { KeepsOutside self.old.rows self.new.rows from.now to.now }
        ensures rooms_outside { KeepsRoomsOutside self.old self.new from.now to.now }
        ensures spare { self.new.spare ≡ self.old.spare }
        ensures none { result ≡ 0 → self.new ≡ self.old }
        ensures in_order { IsInOrder self.new.rows }
    {
        if self.leaves.is_empty() {
            return 0;
        }
        let start = start_from(self.leaves.as_slice(), from);
        let end = start_from(self.leaves.as_slice(), to).later(start);
        self.leaves.remove_range(start, end) as u64
    }

    /// Makes the room of the row at the key at least `room` bytes, and no greater than it was where
    /// it is that already. Then no memory is taken. After an error nothing has changed.
    pub fn widen(&mut self, key: &[u8], room: u64) -> Result<(), OutOfMemory>
        requires { IsSome (value_at self.old.rows key.now) }
        ensures ok { OnOk result (room ≤ room_at self.new.rooms key.now) }
        ensures exact { OnOk result (
            room_at self.new.rooms key.now ≡ max (room_at self.old.rooms key.now) room) }
        ensures enough { room ≤ room_at self.old.rooms key.now → IsOk result }
        ensures readied { Readies self.old self.new }
        ensures spare { self.new.spare ≡ self.old.spare }
        ensures err { OnErr result (self.new ≡ self.old) }
    {
        let place = place_of(self.leaves.as_slice(), key);
        self.leaves.row_mut(place).widen(room as usize)?;
        Ok(())
    }

    /// Puts `bytes` in the place of the `count` bytes from `start` of the value at the key. The new
    /// value fits the row's room. Takes no memory.
    pub fn splice(&mut self, key: &[u8], start: u64, count: u64, bytes: &[u8])
        requires there { IsSome (value_at self.old.rows key.now) }
        requires range { ForSome (value_at self.old.rows key.now) (λ value.
            start + count ≤ length value) }
        requires fits { ForSome (value_at self.old.rows key.now) (λ value.
            length value + length bytes.now ≤ room_at self.old.rooms key.now + count) }
        ensures rows { ForSome (value_at self.old.rows key.now) (λ value.
            self.new.rows
            ≡ with_row self.old.rows key.now (splice value start (start + count) bytes.now)) }
        ensures at_key { ForSome (value_at self.old.rows key.now) (λ value.
            value_at self.new.rows key.now
            ≡ Some (splice value start (start + count) bytes.now)) }
        ensures others { KeepsOthers self.old.rows self.new.rows key.now }
        ensures rooms { KeepsRooms self.old self.new }
        ensures spare { self.new.spare ≡ self.old.spare }
        ensures in_order { IsInOrder self.new.rows }
    {
        let place = place_of(self.leaves.as_slice(), key);
        self.leaves
            .row_mut(place)
            .splice(start as usize, count as usize, bytes);
    }

    /// Makes the number of spare rows `rows`, where it is lower. Where there are as many already no
    /// memory is taken. After an error nothing has changed.
    pub fn reserve(&mut self, rows: u64) -> Result<(), OutOfMemory>
        ensures ok { OnOk result (rows ≤ self.new.spare) }
        ensures exact { OnOk result (self.new.spare ≡ max self.old.spare rows) }
        ensures enough { rows ≤ self.old.spare → IsOk result }
        ensures readied { Readies self.old self.new }
        ensures err { OnErr result (self.new ≡ self.old) }
    {
        let count = self.spares.len().max(rows as usize);
        self.leaves.reserve(count)?;
        self.spares.reserve(count)?;
        Ok(())
    }

    /// Makes a spare row the row of a key that is not there. The key has at most [`SPARE_KEY_LEN`]
    /// bytes and the value at most [`SPARE_VALUE_LEN`]. Takes no memory.
    pub fn put_spare(&mut self, key: &[u8], value: &[u8])
        requires spare { 0 < self.old.spare }
        requires absent { value_at self.old.rows key.now ≡ None }
        requires key_fits { length key.now ≤ SPARE_KEY_LEN }
        requires value_fits { length value.now ≤ SPARE_VALUE_LEN }
        ensures rows { self.new.rows ≡ with_row self.old.rows key.now value.now }
        ensures at_key { value_at self.new.rows key.now ≡ Some value.now }
        ensures others { KeepsOthers self.old.rows self.new.rows key.now }
        ensures fits { length value.now ≤ room_at self.new.rooms key.now }
        ensures rooms { KeepsRooms self.old self.new }
        ensures spare { self.new.spare + 1 ≡ self.old.spare }
        ensures in_order { IsInOrder self.new.rows }
    {
        let place = gap_for(self.leaves.as_slice(), key);
        if self.leaves.has_room(place) {
            let row = self.spares.make_row(key, value);
            self.leaves.insert(place, row);
        } else {
            let (row, leaf) = self.spares.make_row_and_leaf(key, value);
            self.leaves.insert_with(place, row, leaf);
        }
    }

    /// Copies of the first rows whose keys are above `after`, at most `limit` of them, and whether
    /// no row follows these.
    pub fn page(&self, alloc: Global, after: &[u8], limit: u32) -> Result<Page, OutOfMemory>
        ensures rows { IfOk result (λ page.
            page.rows ≡ take limit (rows_after self.now.rows after.now)) }
        ensures end { IfOk result (λ page.
            IsTrue page.end ↔ (length (rows_after self.now.rows after.now) ≤ limit)) }
        ensures in_order { IfOk result (λ page. IsInOrder page.rows) }
    {
        let start = start_after(self.leaves.as_slice(), after);
        Ok(self.leaves.page(alloc, start, limit as usize)?)
    }
}
