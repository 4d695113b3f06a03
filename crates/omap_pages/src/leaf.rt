// A leaf: a run of rows that stand together.
ghost use Rattle.std.specs.Prelude.{◌≡◌, ◌+◌, ◌<◌, ◌≤◌, ◌==◌, ◌/◌, ◌↔◌, [], ◌++◌, length, take, drop, vec_len, vec_capacity, slice_index_or, IsTrue, IfOk, IfErr};
ghost use Rattle.std.specs.FinMap.Entries.{is_sorted};
ghost use Rattle.std.specs.List.{insert, remove, remove_range};
ghost use Rattle.byte_order.specs.Words.{IsWord};
ghost use Rattle.omap_pages.specs.Leaves.{first_key_of};
ghost use Rattle.omap_pages.specs.Places.{IsAt, IsGapFor};
ghost use Rattle.omap_pages.specs.Rows.{key_cmp};

use crate::row::Row;
use std::alloc::{AllocError, Global};
use std::cmp::Ordering;
use std::marker::Model;

// The most rows of a leaf.
pub(crate) const LEAF_ROWS: usize = 64;

// Up to LEAF_ROWS rows, with places for that many. Contracts see the list of the rows.
#[derive(Debug, Drop)]
pub(crate) struct Leaf {
    rows: Vec<Row>,
}

impl Model for Leaf {
    ghost use Rattle.std.specs.Prelude.{◌≤◌, vec_len, vec_capacity};
    ghost use Rattle.omap_pages.specs.Cells.{Cells};
    ghost use Rattle.omap_pages.specs.declared.leaf.TheConstants.{LEAF_ROWS};

    ghost Value = { Cells };

    ghost view = { λ leaf. leaf.rows.items };

    ghost invariant = { λ leaf. (vec_len leaf.rows ≤ LEAF_ROWS)
        × (LEAF_ROWS ≤ vec_capacity leaf.rows) };
}

impl Leaf {
    ghost use Rattle.std.specs.Borrow.{sem};
    ghost use Rattle.omap_pages.specs.LeafLending.{LendsRow};

    // A leaf without rows.
    pub(crate) fn new(alloc: Global) -> Result<Leaf, AllocError>
        ensures { IfOk result (λ leaf. leaf ≡ []) }
    {
        Ok(Leaf {
            rows: Vec::with_capacity(alloc, LEAF_ROWS)?,
        })
    }

    pub(crate) fn len(&self) -> usize
        ensures { result ≡ length self.now }
    {
        self.rows.len()
    }

    pub(crate) fn is_empty(&self) -> bool
        ensures { result ≡ (length self.now == 0) }
    {
        self.rows.is_empty()
    }

    // Whether there is a place for one more row.
    pub(crate) fn has_room(&self) -> bool
        ensures { IsTrue result ↔ (length self.now < LEAF_ROWS) }
    {
        self.rows.len() < LEAF_ROWS
    }

    pub(crate) fn as_slice(&self) -> &[Row]
        ensures { result.now ≡ self.now }
    {
        self.rows.as_slice()
    }

    // How the key of the first row compares with one that has this head. Where there is no row it
    // is the empty key.
    pub(crate) fn cmp_first_key(&self, key: &[u8], head: u64) -> Ordering
        requires { IsWord key.now head }
        ensures { result ≡ key_cmp (first_key_of self.now) key.now }
    {
        match self.rows.first() {
            Some(row) => row.cmp_key(key, head),
            None => b"".as_slice().cmp(key),
        }
    }

    // The place of the key, which has this head, or the place where it would go.
    pub(crate) fn search(&self, key: &[u8], head: u64) -> Result<usize, usize>
        requires in_order { IsTrue (is_sorted key_cmp self.now) }
        requires head { IsWord key.now head }
        ensures found { IfOk result (IsAt self.now key.now) }
        ensures absent { IfErr result (IsGapFor self.now key.now) }
    {
        self.rows
            .as_slice()
            .binary_search_by(|row| row.cmp_key(key, head))
    }

    pub(crate) fn row(&self, at: usize) -> &Row
        requires { at < length self.now }
        ensures { result.now ≡ slice_index_or self.now at result.now }
    {
        &self.rows[at]
    }

    pub(crate) fn row_mut(&mut self, at: usize) -> &mut Row
        requires { at < length self.old }
        ensures* lends { sem 𝓛 (LendsRow self.entry at result) }
        ensures value { result.now ≡ slice_index_or self.old at result.now }
    {
        &mut self.rows[at]
    }

    pub(crate) fn insert(&mut self, at: usize, row: Row)
        requires in_range { at ≤ length self.old }
        requires room { length self.old < LEAF_ROWS }
        ensures { self.new ≡ insert self.old at row }
    {
        self.rows.insert(at, row).unwrap();
    }

    pub(crate) fn remove(&mut self, at: usize)
        requires { at < length self.old }
        ensures { self.new ≡ remove self.old at }
    {
        self.rows.remove(at);
    }

    // Removes the rows from one place to below another.
    pub(crate) fn remove_range(&mut self, start: usize, end: usize)
        requires in_order { start ≤ end }
        requires in_range { end ≤ length self.old }
        ensures { self.new ≡ remove_range self.old start end }
    {
        drop(self.rows.drain(start..end));
    }

    // Moves the upper half of the rows into a leaf that has none.
    pub(crate) fn split(&mut self, mut upper: Leaf) -> Leaf
        requires { upper ≡ [] }
        ensures lower { self.new ≡ take (length self.old / 2) self.old }
        ensures upper { result ≡ drop (length self.old / 2) self.old }
    {
        let middle = self.rows.len() / 2;
        move_rows(&mut self.rows, middle, &mut upper.rows);
        upper
    }
}

// Moves the rows from `start` on to a vector that has none, and places for them.
fn move_rows(rows: &mut Vec<Row>, start: usize, upper: &mut Vec<Row>)
    requires start { start ≤ vec_len rows.old }
    requires none { upper.old.items ≡ [] }
    requires places { vec_len rows.old ≤ vec_capacity upper.old }
    ensures rows { rows.new.items ≡ take start rows.old.items }
    ensures upper { upper.new.items ≡ drop start rows.old.items }
    ensures capacity { vec_capacity rows.new ≡ vec_capacity rows.old }
    ensures upper_capacity { vec_capacity upper.old ≤ vec_capacity upper.new }
{
    while start < rows.len() {
        let row = rows.pop().unwrap();
        upper.push(row).unwrap();
    }
    upper.reverse();
}
