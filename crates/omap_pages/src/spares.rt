ghost use Rattle.std.specs.Prelude.{◌≡◌, ◌^◌, ◌<◌, ◌≤◌, [], length, max, vec_len, vec_capacity, IsOk, IfOk, OnOk, OnErr};
ghost use Rattle.omap_pages.specs.Spares.{MadeOfSpare, SuitsSpare, TakesSpare};
ghost use Rattle.omap_pages.specs.declared.spares.TheConstants.{SPARE_KEY_LEN, SPARE_VALUE_LEN};

use crate::leaf::Leaf;
use crate::row::Row;
use std::alloc::{AllocError, Global};
use std::marker::Model;

/// The longest key that a spare row takes, in bytes.
pub const SPARE_KEY_LEN: usize = 16;

/// The longest value that a spare row takes, in bytes.
pub const SPARE_VALUE_LEN: usize = 1040;

// The buffers of a row that is not there yet.
#[derive(Debug, Drop)]
struct SpareRow {
    key: Vec<u8>,
    value: Vec<u8>,
    ghost key_room: { SPARE_KEY_LEN ≤ vec_capacity key },
    ghost value_room: { SPARE_VALUE_LEN ≤ vec_capacity value },
}

impl SpareRow {
    fn new(alloc: Global) -> Result<Self, AllocError> {
        Ok(SpareRow {
            key: Vec::with_capacity(alloc, SPARE_KEY_LEN)?,
            value: Vec::with_capacity(alloc, SPARE_VALUE_LEN)?,
        })
    }

    // A row with this key and value.
    fn into_row(self, key: &[u8], value: &[u8]) -> Row
        requires { SuitsSpare key.now value.now }
        ensures { MadeOfSpare key.now value.now result }
    {
        Row::new(filled(self.key, key), filled(self.value, value))
    }
}

// A leaf that is not there yet.
#[derive(Debug, Drop)]
struct SpareLeaf {
    leaf: Leaf,
    ghost no_rows: { leaf ≡ [] },
}

// Rows that are not there yet, which contracts see as the number of them, and leaves for them. Most rows go
// into a leaf that is there, so leaves stay for later rows.
#[derive(Debug, Drop)]
pub(crate) struct Spares {
    rows: Vec<SpareRow>,
    leaves: Vec<SpareLeaf>,
    ghost enough: { vec_len rows ≤ vec_len leaves },
}

impl Model for Spares {
    ghost use Rattle.std.specs.Prelude.{ℕ, vec_len};

    ghost Value = { ℕ };

    ghost view = { λ spares. vec_len spares.rows };
}

impl Spares {
    pub(crate) fn new(alloc: Global) -> Self
        ensures { result ≡ 0 }
    {
        Spares {
            rows: Vec::new(alloc),
            leaves: Vec::new(alloc),
        }
    }

    pub(crate) fn len(&self) -> usize
        ensures count { result ≡ self.now }
        ensures bound { self.now < 2 ^ 63 }
    {
        self.rows.len()
    }

    // Makes this many ready, where there are fewer. After an error nothing has changed.
    pub(crate) fn reserve(&mut self, count: usize) -> Result<(), AllocError>
        ensures ok { OnOk result (self.new ≡ max self.old count) }
        ensures enough { count ≤ self.old → IsOk result }
        ensures err { OnErr result (self.new ≡ self.old) }
    {
        let alloc = *self.rows.allocator();
        let mut rows = several_rows(alloc, count.saturating_sub(self.rows.len()))?;
        let mut leaves = several_leaves(alloc, count.saturating_sub(self.leaves.len()))?;
        self.leaves.append(&mut leaves)?;
        self.rows.append(&mut rows)
    }

    // One of them as a row with this key and value. Takes no memory.
    pub(crate) fn make_row(&mut self, key: &[u8], value: &[u8]) -> Row
        requires some { 0 < self.old }
        requires suits { SuitsSpare key.now value.now }
        ensures { TakesSpare self.old self.new key.now value.now result }
    {
        let spare = self.rows.pop().unwrap();
        spare.into_row(key, value)
    }

    // One of them as a row with this key and value, and a leaf for it. Takes no memory.
    pub(crate) fn make_row_and_leaf(&mut self, key: &[u8], value: &[u8]) -> (Row, Leaf)
        requires some { 0 < self.old }
        requires suits { SuitsSpare key.now value.now }
        ensures row { TakesSpare self.old self.new key.now value.now result.0 }
        ensures leaf { result.1 ≡ [] }
    {
        let spare = self.rows.pop().unwrap();
        let SpareLeaf { leaf } = self.leaves.pop().unwrap();
        (spare.into_row(key, value), leaf)
    }
}

fn several_rows(alloc: Global, count: usize) -> Result<Vec<SpareRow>, AllocError>
    ensures ok { IfOk result (λ spares. vec_len spares ≡ count) }
    ensures none { count ≡ 0 → IsOk result }
{
    let mut spares = Vec::with_capacity(alloc, count)?;
    for _ in 0..count {
        spares.push(SpareRow::new(alloc)?)?;
    }
    Ok(spares)
}

fn several_leaves(alloc: Global, count: usize) -> Result<Vec<SpareLeaf>, AllocError>
    ensures ok { IfOk result (λ spares. vec_len spares ≡ count) }
    ensures none { count ≡ 0 → IsOk result }
{
    let mut spares = Vec::with_capacity(alloc, count)?;
    for _ in 0..count {
        let leaf = Leaf::new(alloc)?;
        spares.push(SpareLeaf { leaf })?;
    }
    Ok(spares)
}

// The buffer with these bytes in place of its own.
fn filled(mut buffer: Vec<u8>, bytes: &[u8]) -> Vec<u8>
    requires { length bytes.now ≤ vec_capacity buffer }
    ensures { result.items ≡ bytes.now }
{
    buffer.clear();
    buffer.extend_from_slice(bytes).unwrap();
    buffer
}
