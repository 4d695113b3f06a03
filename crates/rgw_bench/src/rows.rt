//! A map of rows whose keys came by chance.
use crate::chance::{mixed, one_of};
use omap_pages::{Omap, OutOfMemory};
use rgw_types::Bytes;
use std::alloc::Global;

// A key of 16 bytes.
fn key_of(number: u64) -> [u8; 16] {
    let mut key = [0; 16];
    key[..8].copy_from_slice(&mixed(number).to_be_bytes());
    key[8..].copy_from_slice(&number.to_be_bytes());
    key
}

/// A map with the rows of the first numbers.
#[derive(Drop)]
pub struct SampleRows {
    alloc: Global,
    omap: Omap,
    count: u64,
    picked: u64,
}

impl SampleRows {
    pub fn new(alloc: Global, count: u64) -> Result<SampleRows, OutOfMemory> {
        let mut rows = SampleRows {
            alloc,
            omap: Omap::new(alloc)?,
            count,
            picked: 0,
        };
        rows.put_from(0, count)?;
        Ok(rows)
    }

    fn put_from(&mut self, first: u64, count: u64) -> Result<(), OutOfMemory> {
        for at in 0..count {
            let key = Bytes::from_slice(self.alloc, &key_of(first.wrapping_add(at)))?;
            let value = Bytes::from_slice(self.alloc, &[b'v'; 64])?;
            self.omap.put(key, value)?;
        }
        Ok(())
    }

    /// Puts rows of so many further numbers.
    pub fn put_new(&mut self, count: u64) -> anyhow::Result<u64> {
        self.put_from(self.count, count)?;
        Ok(count)
    }

    /// Removes them.
    pub fn remove_new(&mut self, count: u64) -> u64 {
        for at in 0..count {
            self.omap.remove(&key_of(self.count.wrapping_add(at)));
        }
        count
    }

    /// Gets rows by chance, and says how many were there.
    pub fn get_some(&mut self, count: u64) -> u64 {
        let mut found = 0_u64;
        for _ in 0..count {
            self.picked = self.picked.wrapping_add(1);
            let number = one_of(self.count, self.picked);
            if self.omap.get(&key_of(number)).is_some() {
                found = found.wrapping_add(1);
            }
        }
        found
    }

    /// Takes a page of 100 rows from a place by chance in the first half.
    pub fn page(&mut self) -> anyhow::Result<u64> {
        self.picked = self.picked.wrapping_add(1);
        let mut after = key_of(mixed(self.picked));
        after[0] /= 2;
        let page = self.omap.page(self.alloc, &after, 100)?;
        Ok(page.rows.len() as u64)
    }
}
