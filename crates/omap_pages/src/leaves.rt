// Rows in leaves under one directory.
ghost use Rattle.std.specs.Prelude.{◌≡◌, ◌+◌, ◌^◌, ◌<◌, ◌≤◌, ◌↔◌, [], length, slice_index_or, slice_set, drop, take, max, vec_len, vec_capacity, IsTrue, IsOk, IfOk, OnOk, OnErr};
ghost use Rattle.std.specs.List.{insert, remove, remove_range};
ghost use Rattle.omap_pages.specs.Cells.{values_of};
ghost use Rattle.omap_pages.specs.Leaves.{flat, position, leaf_at, one_if_none, one_if_rows, AreLeaves, IsNotAfter, IsPlace, IsRow};
ghost use Rattle.omap_pages.specs.declared.leaf.TheConstants.{LEAF_ROWS};

use crate::leaf::{LEAF_ROWS, Leaf};
use crate::page::{ByteRows, Page};
use crate::place::Place;
use crate::row::{Row, copy_rows};
use std::alloc::{AllocError, Global};
use std::marker::Model;

// More could have more rows than can be counted.
const MAX_LEAVES: usize = usize::MAX / LEAF_ROWS;

// Leaves with rows in their order. Contracts see the list of the leaves, and how many more have a
// place ready in the directory.
#[derive(Debug, Drop)]
pub(crate) struct Leaves {
    leaves: Vec<Leaf>,
}

impl Model for Leaves {
    ghost use Rattle.std.specs.Prelude.{◌≤◌, ◌-◌, min, vec_len, vec_capacity};
    ghost use Rattle.omap_pages.specs.Leaves.{Directory, AreLeaves};
    ghost use Rattle.omap_pages.specs.declared.leaves.TheConstants.{MAX_LEAVES};

    ghost Value = { Directory };

    ghost view = { λ it. record {
      leaves = it.leaves.items;
      free = min (vec_capacity it.leaves) MAX_LEAVES - vec_len it.leaves;
    } };

    ghost invariant = { λ it. AreLeaves it.leaves.items × (vec_len it.leaves ≤ MAX_LEAVES) };
}

impl Leaves {
    ghost use Rattle.std.specs.Borrow.{sem};
    ghost use Rattle.omap_pages.specs.LeavesLending.{LendsRowAt};

    pub(crate) fn new(alloc: Global) -> Leaves
        ensures { result.leaves ≡ [] }
    {
        Leaves {
            leaves: Vec::new(alloc),
        }
    }

    pub(crate) fn allocator(&self) -> Global {
        *self.leaves.allocator()
    }

    pub(crate) fn is_empty(&self) -> bool
        ensures { IsTrue result ↔ (flat self.now.leaves ≡ []) }
    {
        self.leaves.is_empty()
    }

    pub(crate) fn as_slice(&self) -> &[Leaf]
        ensures leaves { result.now ≡ self.now.leaves }
        ensures sizes { AreLeaves result.now }
    {
        self.leaves.as_slice()
    }

    pub(crate) fn clear(&mut self)
        ensures leaves { self.new.leaves ≡ [] }
        ensures free { self.old.free ≤ self.new.free }
    {
        self.leaves.clear();
    }

    // Makes places for so many more leaves in the directory. After an error nothing has changed.
    pub(crate) fn reserve(&mut self, count: usize) -> Result<(), AllocError>
        ensures ok { OnOk result (count ≤ self.new.free) }
        ensures kept { self.old.free ≤ self.new.free }
        ensures enough { count ≤ self.old.free → IsOk result }
        ensures leaves { self.new.leaves ≡ self.old.leaves }
        ensures err { OnErr result (self.new ≡ self.old) }
    {
        if MAX_LEAVES - self.leaves.len() < count {
            return Err(AllocError);
        }
        self.leaves.reserve(count)
    }

    pub(crate) fn row(&self, place: Place) -> &Row
        requires { IsRow self.now.leaves place }
        ensures { result.now
            ≡ slice_index_or (flat self.now.leaves) (position self.now.leaves place) result.now }
    {
        self.leaves[place.leaf].row(place.row)
    }

    pub(crate) fn row_mut(&mut self, place: Place) -> &mut Row
        requires { IsRow self.old.leaves place }
        ensures* lends { sem 𝓛 (LendsRowAt self.entry place result) }
        ensures value { result.now
            ≡ slice_index_or (flat self.old.leaves) (position self.old.leaves place) result.now }
    {
        let leaf = &mut self.leaves[place.leaf];
        leaf.row_mut(place.row)
    }

    // Whether a row can go to the place with no new leaf.
    pub(crate) fn has_room(&self, place: Place) -> bool
        ensures { IsTrue result ↔ ((place.leaf < length self.now.leaves)
            × (length (leaf_at self.now.leaves place) < LEAF_ROWS)) }
    {
        place.leaf < self.leaves.len() && self.leaves[place.leaf].has_room()
    }

    // Puts a row at a place whose leaf has room.
    pub(crate) fn insert(&mut self, place: Place, row: Row)
        requires place { IsPlace self.old.leaves place }
        requires leaf { place.leaf < length self.old.leaves }
        requires room { length (leaf_at self.old.leaves place) < LEAF_ROWS }
        ensures leaves { flat self.new.leaves
            ≡ insert (flat self.old.leaves) (position self.old.leaves place) row }
        ensures free { self.new.free ≡ self.old.free }
    {
        let leaf = &mut self.leaves[place.leaf];
        leaf.insert(place.row, row);
    }

    // Puts a row at any place. Where no leaf has room for it there, `spare` becomes one.
    pub(crate) fn insert_with(&mut self, place: Place, row: Row, mut spare: Leaf)
        requires place { IsPlace self.old.leaves place }
        requires free { 0 < self.old.free }
        requires spare { spare ≡ [] }
        ensures leaves { flat self.new.leaves
            ≡ insert (flat self.old.leaves) (position self.old.leaves place) row }
        ensures free { self.old.free ≤ self.new.free + 1 }
    {
        if self.has_room(place) {
            self.insert(place, row);
        } else if self.is_end(place) {
            spare.insert(0, row);
            self.leaves.push(spare).unwrap();
        } else {
            let place = self.split(place, spare);
            self.insert(place, row);
        }
    }

    // Whether no row stands behind the place.
    fn is_end(&self, place: Place) -> bool
        requires { IsPlace self.now.leaves place }
        ensures end { IsTrue result →
            position self.now.leaves place ≡ length (flat self.now.leaves) }
        ensures leaf { place.leaf ≡ length self.now.leaves → IsTrue result }
    {
        match self.leaves.get(place.leaf) {
            Some(leaf) => place.leaf + 1 == self.leaves.len() && place.row == leaf.len(),
            None => true,
        }
    }

    // Makes two leaves of one that is full, and says where the place is then.
    fn split(&mut self, place: Place, spare: Leaf) -> Place
        requires place { IsPlace self.old.leaves place }
        requires leaf { place.leaf < length self.old.leaves }
        requires full { LEAF_ROWS ≤ length (leaf_at self.old.leaves place) }
        requires free { 0 < self.old.free }
        requires spare { spare ≡ [] }
        ensures leaves { flat self.new.leaves ≡ flat self.old.leaves }
        ensures position { position self.new.leaves result ≡ position self.old.leaves place }
        ensures place { IsPlace self.new.leaves result }
        ensures leaf { result.leaf < length self.new.leaves }
        ensures room { length (leaf_at self.new.leaves result) < LEAF_ROWS }
        ensures free { self.new.free + 1 ≡ self.old.free }
    {
        let leaf = &mut self.leaves[place.leaf];
        let upper = leaf.split(spare);
        let lower_len = leaf.len();
        self.leaves.insert(place.leaf + 1, upper).unwrap();
        if place.row <= lower_len {
            place
        } else {
            Place {
                leaf: place.leaf + 1,
                row: place.row - lower_len,
            }
        }
    }

    // Removes the row at the place, and its leaf where it has no other.
    pub(crate) fn remove(&mut self, place: Place)
        requires { IsRow self.old.leaves place }
        ensures leaves { flat self.new.leaves
            ≡ remove (flat self.old.leaves) (position self.old.leaves place) }
        ensures free { self.old.free ≤ self.new.free }
    {
        let leaf = &mut self.leaves[place.leaf];
        if leaf.len() == 1 {
            drop(self.leaves.remove(place.leaf));
        } else {
            leaf.remove(place.row);
        }
    }

    // Removes the rows from one place to below another, and says how many they were.
    pub(crate) fn remove_range(&mut self, start: Place, end: Place) -> usize
        requires start { IsPlace self.old.leaves start }
        requires end { IsPlace self.old.leaves end }
        requires start_leaf { start.leaf < length self.old.leaves }
        requires end_leaf { end.leaf < length self.old.leaves }
        requires order { IsNotAfter start end }
        ensures count { position self.old.leaves start + result ≡ position self.old.leaves end }
        ensures leaves { flat self.new.leaves
            ≡ remove_range (flat self.old.leaves)
            (position self.old.leaves start)
            (position self.old.leaves end) }
        ensures free { self.old.free ≤ self.new.free }
    {
        let count = count_rows(&self.leaves[start.leaf..end.leaf]) + end.row - start.row;
        cut(self.leaves.as_mut_slice(), start, end);
        drop_emptied(&mut self.leaves, start.leaf, end.leaf);
        count
    }

    // Copies of the first rows from the place on, at most `limit` of them, and whether no row
    // follows these.
    pub(crate) fn page(&self, alloc: Global, start: Place, limit: usize) -> Result<Page, AllocError>
        requires { IsPlace self.now.leaves start }
        ensures rows { IfOk result (λ page. page.rows
            ≡ take limit (values_of (drop (position self.now.leaves start) (flat self.now.leaves)))) }
        ensures end { IfOk result (λ page. IsTrue page.end
            ↔ (length (drop (position self.now.leaves start) (flat self.now.leaves)) ≤ limit)) }
    {
        let mut pairs = Vec::new(alloc);
        let mut skipped = start.row;
        for leaf in &self.leaves.as_slice()[start.leaf..] {
            let rows = &leaf.as_slice()[skipped..];
            let count = rows.len().min(limit - pairs.len());
            copy_rows(alloc, &rows[..count], &mut pairs)?;
            if count < rows.len() {
                return Ok(Page {
                    rows: ByteRows::from_vec(pairs),
                    end: false,
                });
            }
            skipped = 0;
        }
        Ok(Page {
            rows: ByteRows::from_vec(pairs),
            end: true,
        })
    }
}

// How many rows the leaves have.
fn count_rows(leaves: &[Leaf]) -> usize
    requires { length (flat leaves.now) < 2 ^ 64 }
    ensures { result ≡ length (flat leaves.now) }
{
    let mut count = 0;
    for leaf in leaves {
        count += leaf.len();
    }
    count
}

// Takes the rows from one place to below another out of their first leaf and their last one.
fn cut(leaves: &mut [Leaf], start: Place, end: Place)
    requires start { IsPlace leaves.old start }
    requires end { IsPlace leaves.old end }
    requires start_leaf { start.leaf < length leaves.old }
    requires end_leaf { end.leaf < length leaves.old }
    requires order { IsNotAfter start end }
    ensures two { start.leaf < end.leaf → leaves.new
        ≡ slice_set (slice_set leaves.old start.leaf (take start.row (leaf_at leaves.old start)))
        end.leaf (drop end.row (leaf_at leaves.old end)) }
    ensures one { start.leaf ≡ end.leaf → leaves.new
        ≡ slice_set leaves.old start.leaf
        (remove_range (leaf_at leaves.old start) start.row end.row) }
{
    if start.leaf < end.leaf {
        let first = &mut leaves[start.leaf];
        let len = first.len();
        first.remove_range(start.row, len);
        let last = &mut leaves[end.leaf];
        last.remove_range(0, end.row);
    } else {
        let only = &mut leaves[start.leaf];
        only.remove_range(start.row, end.row);
    }
}

// Drops the leaves between two, and these where they have no rows.
fn drop_emptied(leaves: &mut Vec<Leaf>, first: usize, last: usize)
    requires first { first ≤ last }
    requires last { last < vec_len leaves.old }
    ensures items { let start = first + one_if_rows (slice_index_or leaves.old.items first []) in
        let end = last + one_if_none (slice_index_or leaves.old.items last []) in
        leaves.new.items ≡ remove_range leaves.old.items start (max end start) }
    ensures len { vec_len leaves.new ≤ vec_len leaves.old }
    ensures capacity { vec_capacity leaves.new ≡ vec_capacity leaves.old }
{
    let start = first + usize::from(!leaves[first].is_empty());
    let end = last + usize::from(leaves[last].is_empty());
    drop(leaves.drain(start..end.max(start)));
}
