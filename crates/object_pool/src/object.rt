ghost use Rattle.std.specs.Prelude.{◌≡◌, ◌==◌, ◌&&◌, not, ◌+◌, ◌≤◌, [], length, IfOk};
ghost use Rattle.std.specs.List.{splice};
ghost use Rattle.std.specs.Borrow.{sem};
ghost use Rattle.object_pool.specs.PartsLending.{LendsRows};
ghost use Rattle.object_pool.specs.Parts.{no_parts};

use frame_region::FrameRun;
use omap_pages::{Omap, OutOfMemory};
use rgw_types::Bytes;
use smallvec::SmallVec;
use std::alloc::Global;
use std::marker::Model;

// Attributes of up to so many bytes stand in place.
const NEAR_ATTRS: usize = 128;

// The bytes that memory gives at once.
const LINE: usize = 64;

// The attributes and the rows of an object.
#[derive(Drop)]
pub(crate) struct ObjectParts {
    attrs: SmallVec<u8, NEAR_ATTRS>,
    rows: Omap,
}

impl Model for ObjectParts {
    ghost use Rattle.object_pool.specs.Parts.{Parts};

    ghost Value = { Parts };

    ghost view = { λ parts. record { attrs = parts.attrs.items; rows = parts.rows } };
}

impl ObjectParts {
    pub(crate) fn new(alloc: Global) -> Result<ObjectParts, OutOfMemory>
        ensures { IfOk result (λ parts. parts ≡ no_parts) }
    {
        Ok(ObjectParts {
            attrs: SmallVec::new(alloc),
            rows: Omap::new(alloc)?,
        })
    }

    // Whether there are neither attributes nor rows.
    pub(crate) fn is_empty(&self) -> bool
        ensures { result ≡ (length self.now.attrs == 0 && length self.now.rows.rows == 0) }
    {
        self.attrs.is_empty() && self.rows.is_empty()
    }

    pub(crate) fn attrs(&self) -> &[u8]
        ensures { result.now ≡ self.now.attrs }
    {
        self.attrs.as_slice()
    }

    // Reads a byte of each line of memory that short attributes take.
    pub(crate) fn read_through(&self) -> u8 {
        let attrs = self.attrs.as_slice();
        let last = attrs.len().saturating_sub(1);
        byte_at(attrs, 0) ^ byte_at(attrs, LINE) ^ byte_at(attrs, last)
    }

    pub(crate) fn rows(&self) -> &Omap
        ensures { result.now ≡ self.now.rows }
    {
        &self.rows
    }

    pub(crate) fn rows_mut(&mut self) -> &mut Omap
        ensures* lends { sem 𝓛 (LendsRows self.entry result) }
        ensures value { result.now ≡ self.old.rows }
    {
        &mut self.rows
    }

    pub(crate) fn set_attrs(&mut self, attrs: Bytes)
        ensures { self.new ≡ record self.old { attrs = attrs } }
    {
        self.attrs = kept_attrs(attrs);
    }

    pub(crate) fn write_attrs(&mut self, start: usize, bytes: &[u8])
        requires { start + length bytes.now ≤ length self.old.attrs }
        ensures { self.new ≡ record self.old { attrs = splice self.old.attrs start (start + length bytes.now) bytes.now } }
    {
        self.attrs[start..start + bytes.len()].copy_from_slice(bytes);
    }

    // Drops the attributes and the rows. Spare rows stay.
    pub(crate) fn clear(&mut self)
        ensures { self.new ≡ record { attrs = []; rows = record { rows = []; rooms = []; spare = self.old.rows.spare } } }
    {
        self.attrs.clear();
        self.rows.clear();
    }
}

// The byte at a place, or 0 past the last one.
fn byte_at(bytes: &[u8], at: usize) -> u8 {
    bytes.get(at).copied().unwrap_or(0)
}

// Attributes to keep, in place where they are short. Takes no memory.
fn kept_attrs(attrs: Bytes) -> SmallVec<u8, NEAR_ATTRS>
    ensures { result.items ≡ attrs }
{
    let bytes = attrs.into_vec();
    if bytes.len() > NEAR_ATTRS {
        return SmallVec::from_vec(bytes);
    }
    SmallVec::from_slice(*bytes.allocator(), bytes.as_slice()).unwrap()
}

// An object as it is kept: the frames with its bytes, how many bytes these are, and the rest.
#[derive(Drop)]
pub(crate) struct Stored {
    pub(crate) run: FrameRun,
    pub(crate) size: u64,
    pub(crate) parts: ObjectParts,
}

impl Stored {
    ghost use Rattle.object_pool.specs.Stored.{is_stored};

    // Whether there are bytes, attributes or rows.
    pub(crate) fn exists(&self) -> bool
        ensures { result ≡ is_stored self.now }
    {
        !(self.size == 0 && self.parts.is_empty())
    }

    // Reads something of each line of memory that it takes where its attributes are short.
    pub(crate) fn read_through(&self) -> u8 {
        (self.size & 0xFF) as u8 ^ self.parts.read_through()
    }
}
