// Objects by their keys, each with a number by which it is found in one step.
ghost use Rattle.std.specs.Prelude.{◌≡◌, [], Some, None, IsNone, IsSome, IsTrue, OnOk, OnErr, cond, is_some};
ghost use Rattle.std.specs.Borrow.{sem};
ghost use Rattle.std.specs.BTreeMap.{insert_entry};
ghost use Rattle.std.specs.List.{filter};
ghost use Rattle.std.specs.List.Sorted.{IsStrictlySortedBy};
ghost use Rattle.std.specs.Map.{keys_of, lookup};
ghost use Rattle.std.specs.Option.{option_copied};
ghost use Rattle.slab.specs.Slab.{get, Updates};
ghost use Rattle.rgw_types.specs.declared.pool_key.Key.{Key as KeyOf};
ghost use Rattle.object_pool.specs.Objects.{is_key, key_cmp};
ghost use Rattle.object_pool.specs.Stored.{is_stored};
ghost use Rattle.object_pool.specs.Shelves.{IsShelf, IsSwept, HasKey, is_stored_at, left_of};
ghost use Rattle.object_pool.specs.ShelfLending.{LendsStored};

use crate::guesses::{Guesses, Spot};
use crate::kept_key::KeptKey;
use crate::object::Stored;
use omap_pages::OutOfMemory;
use rgw_types::Key;
use slab::Slab;
use std::alloc::Global;
use std::collections::BTreeMap;
use std::marker::Model;

// An object with its key.
#[derive(Drop)]
pub(crate) struct Kept {
    key: KeptKey,
    object: Stored,
}

// Contracts see the objects by their keys, in the order of these. A call that is told the number of
// a key looks there first, one that is told none under the number that is guessed, and in the map of
// the numbers only where another key has it.
#[derive(Drop)]
pub(crate) struct Shelf {
    numbers: BTreeMap<Key, usize>,
    kept: Slab<Kept>,
    guesses: Guesses,
}

impl Model for Shelf {
    ghost use Rattle.object_pool.specs.Stored.{Entries};
    ghost use Rattle.object_pool.specs.Shelves.{IsShelf, entries_of};

    ghost Value = { Entries };

    ghost view = { λ shelf. entries_of shelf.kept shelf.numbers.entries };

    ghost invariant = { λ shelf. IsShelf shelf.kept shelf.numbers.entries };
}

impl Shelf {
    pub(crate) fn new(alloc: Global) -> Self
        ensures { result ≡ [] }
    {
        Shelf {
            numbers: BTreeMap::new(alloc),
            kept: Slab::new(alloc),
            guesses: Guesses::new(alloc),
        }
    }

    // How many keys have something.
    pub(crate) fn len(&self) -> usize {
        self.numbers.len()
    }

    // Where the key's object is guessed to be.
    pub(crate) fn guess(&self, key: &Key) -> Spot {
        self.guesses.spot_of(key)
    }

    // Reads something of each line of memory that what has this number takes.
    pub(crate) fn read_through(&self, number: usize) -> u8 {
        match self.kept.get(number) {
            Some(kept) => kept.object.read_through(),
            None => 0,
        }
    }

    // The number of a key that has something. This one is tried first.
    pub(crate) fn number_of(&self, number: usize, key: &Key) -> Option<usize>
        ensures { is_some result ≡ is_some (lookup (is_key key.now) self.now) }
    {
        locate(&self.numbers, &self.kept, number, key)
    }

    // Guesses from now on that the key's object begins at this frame.
    pub(crate) fn note_frame(&mut self, key: &Key, frame: u32)
        ensures { self.new ≡ self.old }
    {
        self.guesses.note_frame(key, frame);
    }

    // Looks for the key under this number first from now on.
    pub(crate) fn note(&mut self, alloc: Global, key: &Key, number: usize)
        ensures { self.new ≡ self.old }
    {
        let objects = self.numbers.len();
        self.guesses.note(alloc, objects, key, number);
    }

    // What the key has. Its number is tried first.
    pub(crate) fn get(&self, number: usize, key: &Key) -> Option<&Stored>
        ensures { option_copied result ≡ lookup (is_key key.now) self.now }
    {
        match locate(&self.numbers, &self.kept, number, key) {
            Some(found) => Some(&self.kept.get(found).unwrap().object),
            None => None,
        }
    }

    // What a key has that has something, to change it. Its number is tried first.
    pub(crate) fn get_mut(&mut self, number: usize, key: &Key) -> &mut Stored
        requires { IsSome (lookup (is_key key.now) self.old) }
        ensures* lends { sem 𝓛 (LendsStored self.entry key.now result) }
        ensures value { lookup (is_key key.now) self.old ≡ Some result.now }
    {
        let found = locate(&self.numbers, &self.kept, number, key).unwrap();
        let kept = self.kept.get_mut(found).unwrap();
        &mut kept.object
    }

    // Gives a new key an object, and says its number. After an error nothing has changed.
    pub(crate) fn insert(
        &mut self,
        alloc: Global,
        key: &Key,
        object: Stored,
    ) -> Result<usize, OutOfMemory>
        requires { IsNone (lookup (is_key key.now) self.old) }
        ensures entries { OnOk result (self.new ≡ insert_entry key_cmp self.old key.now object) }
        ensures found { OnOk result ((q : KeyOf) → lookup (is_key q) self.new
            ≡ cond (is_key key.now q) (Some object) (lookup (is_key q) self.old)) }
        ensures in_order { IsStrictlySortedBy key_cmp (keys_of self.new) }
        ensures err { OnErr result (self.new ≡ self.old) }
    {
        self.kept.reserve(1)?;
        let own = KeptKey::copy_of(alloc, key)?;
        let number = self.kept.vacant_key();
        self.numbers.insert(key.clone()?, number)?;
        Ok(self.kept.insert_reserved(Kept { key: own, object }))
    }

    // Keeps only the objects that exist. A step for each key, however many numbers there once were.
    pub(crate) fn retain_existing(&mut self)
        ensures entries { self.new ≡ filter (λ e. is_stored e.1) self.old }
        ensures in_order { IsStrictlySortedBy key_cmp (keys_of self.new) }
    {
        forget_emptied(&mut self.kept, &self.numbers);
        let kept = &self.kept;
        self.numbers.retain(|_key, number| exists_at(kept, *number));
    }
}

// Forgets each object that does not exist.
fn forget_emptied(kept: &mut Slab<Kept>, numbers: &BTreeMap<Key, usize>)
    requires { IsShelf kept.old numbers.now.entries }
    ensures { IsSwept kept.old kept.new }
{
    for number in numbers.values() {
        forget_if_emptied(kept, *number);
    }
}

// Forgets the object with this number where it does not exist.
fn forget_if_emptied(kept: &mut Slab<Kept>, number: usize)
    ensures { Updates kept.old kept.new number (left_of (get kept.old number)) }
{
    if !exists_at(kept, number) {
        let _ = kept.try_remove(number);
    }
}

// Whether an object with this number exists.
fn exists_at(kept: &Slab<Kept>, number: usize) -> bool
    ensures { result ≡ is_stored_at kept.now number }
{
    match kept.get(number) {
        Some(kept) => kept.object.exists(),
        None => false,
    }
}

// Whether the key has this number.
fn is_at(kept: &Slab<Kept>, number: usize, key: &Key) -> bool
    ensures { IsTrue result → HasKey kept.now number key.now }
{
    match kept.get(number) {
        Some(found) => found.key.is(key),
        None => false,
    }
}

// The number of the key.
fn locate(
    numbers: &BTreeMap<Key, usize>,
    kept: &Slab<Kept>,
    number: usize,
    key: &Key,
) -> Option<usize>
    requires { IsShelf kept.now numbers.now.entries }
    ensures { result ≡ lookup (is_key key.now) numbers.now.entries }
{
    if is_at(kept, number, key) {
        Some(number)
    } else {
        numbers.get(key).copied()
    }
}
