ghost use Rattle.std.specs.Prelude.{◌≡◌, ◌↔◌, ◌+◌, ◌-◌, ◌^◌, ◌<◌, ◌≤◌, [], IfOk, IfErr, OnOk, OnErr, IsErr, IsOk, IsTrue, IsSome, IsNone, is_some, false, min, length, take, drop};
ghost use Rattle.std.specs.Borrow.{sem};
ghost use Rattle.std.specs.Int.{div_ceil};
ghost use Rattle.frame_region.specs.Region.{SuitsRegion};
ghost use Rattle.std.specs.Map.{lookup};
ghost use Rattle.rgw_types.specs.declared.pool_key.Key.{Key as KeyOf};
ghost use Rattle.object_pool.specs.Objects.{HasFrameSum, IsMap, KeepsAll, KeepsCounts, dropped, exists, frames_of, is_key, nothing, object_at, objects, slot_at, with_object};
ghost use Rattle.object_pool.specs.Lending.{LendsParts};
ghost use Rattle.object_pool.specs.Stored.{PutsNothing};

use crate::error::NoSpace;
use crate::lookup::stored_at;
use crate::object::{ObjectParts, Stored};
use crate::shelf::Shelf;
use crate::sweep::Sweep;
use frame_region::Region;
use omap_pages::OutOfMemory;
use rgw_types::{Bytes, Key};
use std::alloc::Global;
use std::marker::Model;
use std::mem::replace;

/// The objects of one zone, by their keys. Each has bytes, which lie in frames, attributes and rows.
///
/// An object with none of these does not exist. Contracts see a finite map from keys to objects that
/// has none of that kind: `objects` lists it, and `object_at` finds in it, with `nothing` where there is
/// no object. Spare rows that are ready for an object that does not exist are lost when its place is
/// given up.
///
/// The bytes of an object take as many frames as they fill, the last one in part.
#[derive(Drop)]
pub struct Pool {
    region: Region,
    // The bytes of one frame.
    frame: u32,
    objects: Shelf,
    sweep: Sweep,
    // What was read ahead of a look-up, which says nothing.
    ahead: u8,
}

impl Model for Pool {
    ghost use Rattle.object_pool.specs.Objects.{PoolView};
    ghost use Rattle.object_pool.specs.Stored.{IsSound, slots_in};

    ghost Value = { PoolView };

    ghost view = { λ p. record {
      frame = p.region.frame;
      frames = p.region.frames;
      free = p.region.free;
      slots = slots_in p.region p.objects;
    } };

    ghost invariant = { λ p. IsSound p.region p.frame p.objects };
}

impl Pool {
    /// A pool without objects, of `frames` frames of `frame` bytes each. It fails only for want of
    /// memory.
    pub fn new(alloc: Global, frames: u32, frame: u32) -> Result<Pool, OutOfMemory>
        requires { SuitsRegion frames frame }
        ensures { IfOk result (λ pool. pool ≡ record { frame = frame; frames = frames; free = frames; slots = [] }) }
    {
        Ok(Pool {
            region: Region::new(alloc, frames, frame)?,
            frame,
            objects: Shelf::new(alloc),
            sweep: Sweep::new(),
            ahead: 0,
        })
    }

    /// How many frames are free.
    pub fn free(&self) -> u32
        ensures value { result ≡ self.now.free }
        ensures sum { HasFrameSum self.now }
        ensures map { IsMap self.now }
    {
        self.region.free()
    }

    #[cfg(test)]
    pub(crate) fn kept(&self) -> usize {
        self.objects.len()
    }

    // The number of the key under which something is kept. The calls below that are told a number try
    // it first, so that with this one they look no key up.
    pub(crate) fn number_of(&mut self, key: &Key) -> Option<usize>
        ensures there { is_some result ≡ is_some (lookup (is_key key.now) self.old.slots) }
        ensures same { self.new ≡ self.old }
        ensures sum { HasFrameSum self.old }
    {
        let spot = self.objects.guess(key);
        let number = spot.number as usize;
        // Memory gives all pieces of the object at once, where it gave one after another.
        self.ahead = self.objects.read_through(number) ^ self.region.first_byte(spot.frame);
        self.objects.number_of(number, key)
    }

    // Whether the object exists.
    pub(crate) fn has_object(&self, number: usize, key: &Key) -> bool
        ensures value { result ≡ exists (slot_at self.now.slots key.now) }
        ensures there { IsTrue result → IsSome (lookup (is_key key.now) self.now.slots) }
        ensures sum { HasFrameSum self.now }
    {
        match self.objects.get(number, key) {
            Some(object) => object.exists(),
            None => false,
        }
    }

    // Keeps something under the key: the object, or nothing where it does not exist. Says its number.
    pub(crate) fn make_ready(&mut self, alloc: Global, key: &Key) -> Result<usize, OutOfMemory>
        ensures there { OnOk result (IsSome (lookup (is_key key.now) self.new.slots)) }
        ensures object { OnOk result (slot_at self.new.slots key.now ≡ object_at self.old key.now) }
        ensures exists { IsTrue (exists (slot_at self.old.slots key.now)) → IsOk result }
        ensures objects { objects self.new ≡ objects self.old }
        ensures all { KeepsAll self.old self.new }
        ensures counts { KeepsCounts self.old self.new }
        ensures sum { HasFrameSum self.new }
    {
        let number = match self.number_of(key) {
            Some(number) => number,
            None => return self.make_place(alloc, key),
        };
        if self.has_object(number, key) {
            return Ok(number);
        }
        self.make_empty(alloc, number, key)?;
        Ok(number)
    }

    // Puts nothing in the place of what is kept for an object that does not exist.
    fn make_empty(&mut self, alloc: Global, number: usize, key: &Key) -> Result<(), OutOfMemory>
        requires there { IsSome (lookup (is_key key.now) self.old.slots) }
        requires gone { exists (slot_at self.old.slots key.now) ≡ false }
        ensures there { IsSome (lookup (is_key key.now) self.new.slots) }
        ensures nothing { PutsNothing key.now self.old self.new result }
    {
        *self.parts_mut(number, key) = ObjectParts::new(alloc)?;
        Ok(())
    }

    // Makes a place for a key that has none, with nothing in it.
    fn make_place(&mut self, alloc: Global, key: &Key) -> Result<usize, OutOfMemory>
        requires { IsNone (lookup (is_key key.now) self.old.slots) }
        ensures there { OnOk result (IsSome (lookup (is_key key.now) self.new.slots)) }
        ensures nothing { PutsNothing key.now self.old self.new result }
    {
        if self.sweep.is_due(self.objects.len()) {
            self.forget_emptied();
        }
        let number = self.insert(alloc, key)?;
        self.note(alloc, key, number);
        Ok(number)
    }

    // Looks for the key under this number first from now on.
    fn note(&mut self, alloc: Global, key: &Key, number: usize)
        ensures { self.new ≡ self.old }
    {
        self.objects.note(alloc, key, number);
    }

    // Forgets what is kept for objects that do not exist.
    fn forget_emptied(&mut self)
        ensures objects { objects self.new ≡ objects self.old }
        ensures all { KeepsAll self.old self.new }
        ensures counts { KeepsCounts self.old self.new }
        ensures absent { (k : KeyOf) → IsNone (lookup (is_key k) self.old.slots) → IsNone (lookup (is_key k) self.new.slots) }
    {
        self.objects.retain_existing();
        self.sweep.note(self.objects.len());
    }

    // Keeps nothing under a new key.
    fn insert(&mut self, alloc: Global, key: &Key) -> Result<usize, OutOfMemory>
        requires { IsNone (lookup (is_key key.now) self.old.slots) }
        ensures there { OnOk result (IsSome (lookup (is_key key.now) self.new.slots)) }
        ensures ok { OnOk result (slot_at self.new.slots key.now ≡ nothing) }
        ensures objects { objects self.new ≡ objects self.old }
        ensures all { KeepsAll self.old self.new }
        ensures counts { KeepsCounts self.old self.new }
    {
        let parts = ObjectParts::new(alloc)?;
        let run = self.region.take(0).unwrap();
        let object = Stored {
            run,
            size: 0,
            parts,
        };
        let number = self.objects.insert(alloc, key, object)?;
        Ok(number)
    }

    // The attributes and the rows at a key, to change them.
    pub(crate) fn parts_mut(&mut self, number: usize, key: &Key) -> &mut ObjectParts
        requires { IsSome (lookup (is_key key.now) self.old.slots) }
        ensures* lends { sem 𝓛 (LendsParts self.entry key.now result) }
        ensures attrs { result.now.attrs ≡ (slot_at self.old.slots key.now).attrs }
        ensures rows { result.now.rows ≡ (slot_at self.old.slots key.now).rows }
    {
        let object = self.objects.get_mut(number, key);
        &mut object.parts
    }

    // The attributes and the rows at a key.
    pub(crate) fn parts(&self, number: usize, key: &Key) -> &ObjectParts
        requires { IsSome (lookup (is_key key.now) self.now.slots) }
        ensures attrs { result.now.attrs ≡ (slot_at self.now.slots key.now).attrs }
        ensures rows { result.now.rows ≡ (slot_at self.now.slots key.now).rows }
    {
        &stored_at(&self.objects, number, key).parts
    }

    // How many bytes are at a key.
    pub(crate) fn size(&self, number: usize, key: &Key) -> u64
        requires { IsSome (lookup (is_key key.now) self.now.slots) }
        ensures { result ≡ length (slot_at self.now.slots key.now).bytes }
    {
        stored_at(&self.objects, number, key).size
    }

    // What there is of a range of the bytes at a key.
    pub(crate) fn bytes(
        &self,
        alloc: Global,
        number: usize,
        key: &Key,
        start: u64,
        count: u64,
    ) -> Result<Bytes, OutOfMemory>
        requires { IsSome (lookup (is_key key.now) self.now.slots) }
        ensures { IfOk result (λ bytes. bytes ≡ take count (drop start (slot_at self.now.slots key.now).bytes)) }
    {
        let object = stored_at(&self.objects, number, key);
        let first = start.min(object.size);
        let length = count.min(object.size - first);
        let mut bytes = vec![in alloc; 0u8; length as usize]?;
        self.region.read(&object.run, first, bytes.as_mut_slice());
        Ok(Bytes::from_vec(bytes))
    }

    // Puts bytes in the place of those at a key.
    pub(crate) fn put_bytes(
        &mut self,
        number: usize,
        key: &Key,
        bytes: &[u8],
    ) -> Result<(), NoSpace>
        requires { IsSome (lookup (is_key key.now) self.old.slots) }
        ensures refused { IsErr result ↔ (self.old.free < div_ceil (length bytes.now) self.old.frame) }
        ensures told { IfErr result (λ e. e ≡ record { free = self.old.free; needed = min (div_ceil (length bytes.now) self.old.frame) (2 ^ 32 - 1) }) }
        ensures err { OnErr result (self.new ≡ self.old) }
        ensures ok { OnOk result (self.new ≡ with_object self.old key.now
            (record (slot_at self.old.slots key.now) { bytes = bytes.now })
            (self.old.free - div_ceil (length bytes.now) self.old.frame + frames_of self.old.frame (slot_at self.old.slots key.now))) }
        ensures there { IsSome (lookup (is_key key.now) self.new.slots) }
        ensures sum { HasFrameSum self.new }
    {
        let frames = bytes.len().div_ceil(self.frame as usize);
        let needed = u32::try_from(frames).unwrap_or(u32::MAX);
        let run = match self.region.take(needed) {
            Ok(run) => run,
            Err(refused) => {
                let free = refused.free;
                return Err(NoSpace { free, needed });
            }
        };
        self.region.write(&run, 0, bytes);
        let object = self.objects.get_mut(number, key);
        object.size = bytes.len() as u64;
        let old = replace(&mut object.run, run);
        self.region.give(old);
        Ok(())
    }

    // Guesses the frame where the bytes at a key begin from now on.
    pub(crate) fn note_frame(&mut self, number: usize, key: &Key)
        ensures { self.new ≡ self.old }
    {
        if let Some(object) = self.objects.get(number, key) {
            let frame = object.run.first();
            self.objects.note_frame(key, frame);
        }
    }

    // Drops the bytes, the attributes and the rows at a key. Spare rows stay.
    pub(crate) fn drop_object(&mut self, number: usize, key: &Key)
        requires { IsSome (lookup (is_key key.now) self.old.slots) }
        ensures after { self.new ≡ with_object self.old key.now (dropped (slot_at self.old.slots key.now))
            (self.old.free + frames_of self.old.frame (slot_at self.old.slots key.now)) }
        ensures there { IsSome (lookup (is_key key.now) self.new.slots) }
        ensures sum { HasFrameSum self.new }
    {
        let _ = self.put_bytes(number, key, &[]);
        self.parts_mut(number, key).clear();
    }
}
