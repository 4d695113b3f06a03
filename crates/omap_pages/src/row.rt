ghost use Rattle.std.specs.Prelude.{◌≡◌, ◌+◌, ◌≤◌, ◌++◌, length, max, vec_len, vec_capacity, IsOk, OnOk, OnErr};
ghost use Rattle.std.specs.List.{splice};
ghost use Rattle.omap_pages.specs.Cells.{values_of};
ghost use Rattle.byte_order.specs.Words.{IsWord};
ghost use Rattle.omap_pages.specs.Rows.{key_cmp};

use byte_order::{compare, head_of};
use rgw_types::Bytes;
use std::alloc::{AllocError, Global};
use std::cmp::Ordering;
use std::marker::Model;

// A key and its value. The room of the row is the capacity of the value's buffer.
// The key's head stands in the row itself, so that most comparisons follow no pointer.
#[derive(Debug, Drop)]
pub(crate) struct Row {
    head: u64,
    key: Vec<u8>,
    value: Vec<u8>,
}

impl Model for Row {
    ghost use Rattle.std.specs.Prelude.{ℕ, List, vec_capacity};
    ghost use Rattle.omap_pages.specs.Cells.{Cell};
    ghost use Rattle.byte_order.specs.Words.{IsWord};

    ghost Value = { List ℕ × Cell };

    ghost view = { λ row.
        (row.key.items, record { value = row.value.items; room = vec_capacity row.value }) };

    ghost invariant = { λ row. IsWord row.key.items row.head };
}

impl Row {
    pub(crate) fn new(key: Vec<u8>, value: Vec<u8>) -> Self
        ensures key { result.0 ≡ key.items }
        ensures value { result.1.value ≡ value.items }
        ensures fits { length value.items ≤ result.1.room }
    {
        let head = head_of(key.as_slice());
        Row { head, key, value }
    }

    // How the row's key compares with one that has this head.
    pub(crate) fn cmp_key(&self, key: &[u8], head: u64) -> Ordering
        requires { IsWord key.now head }
        ensures { result ≡ key_cmp self.now.0 key.now }
    {
        if self.head == head {
            compare(self.key.as_slice(), key)
        } else {
            self.head.cmp(&head)
        }
    }

    pub(crate) fn key(&self) -> &[u8]
        ensures { result.now ≡ self.now.0 }
    {
        self.key.as_slice()
    }

    pub(crate) fn value(&self) -> &[u8]
        ensures value { result.now ≡ self.now.1.value }
        ensures fits { length result.now ≤ self.now.1.room }
    {
        self.value.as_slice()
    }

    pub(crate) fn set_value(&mut self, value: Vec<u8>)
        ensures key { self.new.0 ≡ self.old.0 }
        ensures value { self.new.1.value ≡ value.items }
        ensures fits { length value.items ≤ self.new.1.room }
    {
        self.value = value;
    }

    // Raises the room to this, where it is lower. After an error nothing has changed.
    pub(crate) fn widen(&mut self, room: usize) -> Result<(), AllocError>
        ensures ok { OnOk result (self.new.1.room ≡ max self.old.1.room room) }
        ensures enough { room ≤ self.old.1.room → IsOk result }
        ensures key { self.new.0 ≡ self.old.0 }
        ensures value { self.new.1.value ≡ self.old.1.value }
        ensures err { OnErr result (self.new ≡ self.old) }
    {
        let missing = room.saturating_sub(self.value.len());
        self.value.reserve_exact(missing)
    }

    // Puts `bytes` in the place of `count` bytes from `start`, within the row's room.
    pub(crate) fn splice(&mut self, start: usize, count: usize, bytes: &[u8])
        requires range { start + count ≤ length self.old.1.value }
        requires fits { length self.old.1.value + length bytes.now ≤ self.old.1.room + count }
        ensures key { self.new.0 ≡ self.old.0 }
        ensures value { self.new.1.value ≡ splice self.old.1.value start (start + count) bytes.now }
        ensures kept { self.old.1.room ≤ self.new.1.room }
    {
        let shared = count.min(bytes.len());
        let (over, more) = bytes.split_at(shared);
        overwrite(&mut self.value, start, over);
        let end = start + count;
        if more.is_empty() {
            drop(self.value.drain(start + shared..end));
        } else {
            insert_reserved(&mut self.value, start + shared, more);
        }
    }
}

// Writes over the bytes from `start` on.
fn overwrite(value: &mut Vec<u8>, start: usize, bytes: &[u8])
    requires { start + length bytes.now ≤ vec_len value.old }
    ensures items { value.new.items
        ≡ splice value.old.items start (start + length bytes.now) bytes.now }
    ensures capacity { vec_capacity value.new ≡ vec_capacity value.old }
{
    value[start..start + bytes.len()].copy_from_slice(bytes);
}

// Puts bytes in at `start`, where the capacity has places for them.
fn insert_reserved(value: &mut Vec<u8>, start: usize, bytes: &[u8])
    requires in_bounds { start ≤ vec_len value.old }
    requires room { vec_len value.old + length bytes.now ≤ vec_capacity value.old }
    ensures items { value.new.items ≡ splice value.old.items start start bytes.now }
    ensures capacity { vec_capacity value.old ≤ vec_capacity value.new }
{
    value.extend_from_slice(bytes).unwrap();
    value[start..].rotate_right(bytes.len());
}

// Puts copies of the keys and values behind the pairs.
pub(crate) fn copy_rows(
    alloc: Global,
    rows: &[Row],
    pairs: &mut Vec<(Bytes, Bytes)>,
) -> Result<(), AllocError>
    ensures { OnOk result (pairs.new.items ≡ pairs.old.items ++ values_of rows.now) }
{
    pairs.reserve(rows.len())?;
    for row in rows {
        let key = Bytes::from_slice(alloc, row.key())?;
        let value = Bytes::from_slice(alloc, row.value())?;
        pairs.push((key, value))?;
    }
    Ok(())
}
