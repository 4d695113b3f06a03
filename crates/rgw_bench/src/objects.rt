//! A pool of objects, each with attributes, and calls on one after another.
use crate::chance::{mixed, one_of};
use object_pool::{Bytes, Key, OutOfMemory, Pool};
use rgw_types::Text;
use std::alloc::Global;

// The head of an object, whose name comes by chance.
fn key_of(alloc: Global, number: u64) -> Result<Key, OutOfMemory> {
    let mixed = mixed(number);
    let name = format!(in alloc; "photos/{mixed:016x}")?;
    Ok(Key::Head {
        container: 7,
        name: Text::from_string(name),
    })
}

/// A pool with the objects of the first numbers, and keys of some of them.
#[derive(Drop)]
pub struct Objects {
    alloc: Global,
    pool: Pool,
    count: u64,
    picked: u64,
    keys: Vec<Key>,
}

impl Objects {
    pub fn new(alloc: Global, count: u32) -> Result<Objects, OutOfMemory> {
        let frames = count.clamp(1, 4_000_000);
        let count = u64::from(frames);
        let mut pool = Pool::new(alloc, frames, 16)?;
        for number in 0..count {
            let key = key_of(alloc, number)?;
            let attrs = Bytes::from_slice(alloc, &[b'a'; 110])?;
            put(alloc, &mut pool, &key, attrs)?;
        }
        Ok(Objects {
            alloc,
            pool,
            count,
            picked: 0,
            keys: Vec::new(alloc),
        })
    }

    /// Picks so many objects by chance.
    pub fn pick(&mut self, count: u64) -> Result<(), OutOfMemory> {
        self.keys.clear();
        for _ in 0..count {
            self.picked = self.picked.wrapping_add(1);
            let number = one_of(self.count, self.picked);
            self.keys.push(key_of(self.alloc, number)?)?;
        }
        Ok(())
    }

    /// Reads and changes each picked object as a class call does, and says how many there were.
    pub fn change_picked(&mut self) -> anyhow::Result<u64> {
        let mut changed = 0_u64;
        for key in &self.keys {
            if change(self.alloc, &mut self.pool, key)? {
                changed = changed.wrapping_add(1);
            }
        }
        Ok(changed)
    }

    /// Reads each picked object, and says how many there were.
    pub fn read_picked(&mut self) -> anyhow::Result<u64> {
        let mut there = 0_u64;
        for key in &self.keys {
            if read(self.alloc, &mut self.pool, key)? {
                there = there.wrapping_add(1);
            }
        }
        Ok(there)
    }
}

// Puts an object of five bytes.
fn put(alloc: Global, pool: &mut Pool, key: &Key, attrs: Bytes) -> Result<(), OutOfMemory> {
    let mut place = pool.place(alloc, key)?;
    place.set_attrs(attrs);
    let _ = place.put_bytes(b"hello");
    Ok(())
}

// Copies of the attributes and of the bytes. Are there five of these?
fn read(alloc: Global, pool: &mut Pool, key: &Key) -> Result<bool, OutOfMemory> {
    let Some(place) = pool.find(key) else {
        return Ok(false);
    };
    let attrs = Bytes::from_slice(alloc, place.attrs())?;
    let bytes = place.bytes(alloc, 0, place.size())?;
    Ok(!attrs.is_empty() && bytes.len() == 5)
}

// One find and six calls of the place.
fn change(alloc: Global, pool: &mut Pool, key: &Key) -> Result<bool, OutOfMemory> {
    let Some(mut place) = pool.find(key) else {
        return Ok(false);
    };
    let some = !place.attrs().is_empty();
    let absent = place.row(b"row").is_none();
    let row = Bytes::from_slice(alloc, b"row")?;
    let value = Bytes::from_slice(alloc, b"value")?;
    place.put_row(alloc, row, value)?;
    let there = place.row(b"row").is_some();
    let taken = place.take_row(b"row");
    Ok(some && absent && there && taken && place.exists())
}
