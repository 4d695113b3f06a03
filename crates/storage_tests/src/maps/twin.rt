// An ordered map and a sorted vector of pairs that change together.
ghost use Rattle.std.specs.Prelude.{◌<◌, ◌≤◌, length};
ghost use Rattle.std.specs.List.Sorted.{IsSearchInRange};

use super::word::{WORD_LEN, Word};
use omap_pages::{Omap, OutOfMemory};
use rgw_types::Bytes;
use std::alloc::Global;

type Pair = (Word, Word);

// A key has fewer letters.
const KEY_SIDES: u64 = 8;

// A value that is put has fewer letters.
const VALUE_SIDES: u64 = 20;

// A linear congruential generator.
#[derive(Drop)]
struct Dice {
    state: u64,
}

impl Dice {
    // A number below `sides`.
    fn roll(&mut self, sides: u64) -> u64
        requires { 0 < sides }
        ensures { result < sides }
    {
        self.state = self
            .state
            .wrapping_mul(6_364_136_223_846_793_005)
            .wrapping_add(1_442_695_040_888_963_407);
        (self.state >> 33) % sides
    }

    // Fewer than `sides` letters of three, rather many than few.
    fn word(&mut self, sides: u64) -> Word
        requires { 0 < sides }
    {
        let mut word = Word::empty();
        let count = self.roll(sides).max(self.roll(sides));
        for _ in 0..count {
            word.push(b'a' + self.roll(3) as u8);
        }
        word
    }
}

// The place of the key in a sorted vector, or the place where it would go.
fn place(plain: &[Pair], key: &Word) -> Result<usize, usize>
    ensures { IsSearchInRange result (length plain.now) }
{
    plain.binary_search_by(|pair| pair.0.cmp(key))
}

// The place of the first pair whose key is not below this one.
fn start_from(plain: &[Pair], key: &Word) -> usize
    ensures { result ≤ length plain.now }
{
    match place(plain, key) {
        Ok(at) | Err(at) => at,
    }
}

// The place of the first pair whose key is above this one.
fn start_after(plain: &[Pair], key: &Word) -> usize
    ensures { result ≤ length plain.now }
{
    match place(plain, key) {
        Ok(at) => at + 1,
        Err(at) => at,
    }
}

// Whether the rows are the pairs.
fn are_same(rows: &[(Bytes, Bytes)], pairs: &[Pair]) -> bool {
    if rows.len() != pairs.len() {
        return false;
    }
    for (row, pair) in rows.iter().zip(pairs) {
        if row.0.as_slice() != pair.0.as_slice() || row.1.as_slice() != pair.1.as_slice() {
            return false;
        }
    }
    true
}

// Each step tells whether the two agree.
#[derive(Drop)]
pub(super) struct Twin {
    alloc: Global,
    omap: Omap,
    plain: Vec<Pair>,
    dice: Dice,
}

impl Twin {
    pub(super) fn new(alloc: Global, seed: u64) -> Result<Twin, OutOfMemory> {
        Ok(Twin {
            alloc,
            omap: Omap::new(alloc)?,
            plain: Vec::new(alloc),
            dice: Dice { state: seed },
        })
    }

    // How many rows there are.
    pub(super) fn len(&self) -> usize {
        self.plain.len()
    }

    // One call on both, picked by chance.
    pub(super) fn step(&mut self) -> Result<bool, OutOfMemory> {
        match self.dice.roll(100) {
            0..40 => self.put(),
            40..55 => Ok(self.remove()),
            55..57 => Ok(self.remove_range()),
            57..70 => self.splice(),
            70..85 => self.put_spare(),
            _ => self.page(),
        }
    }

    fn put(&mut self) -> Result<bool, OutOfMemory> {
        let key = self.dice.word(KEY_SIDES);
        let value = self.dice.word(VALUE_SIDES);
        let key_bytes = Bytes::from_slice(self.alloc, key.as_slice())?;
        let value_bytes = Bytes::from_slice(self.alloc, value.as_slice())?;
        self.omap.put(key_bytes, value_bytes)?;
        self.put_plain(key, value)
    }

    fn put_plain(&mut self, key: Word, value: Word) -> Result<bool, OutOfMemory> {
        match place(self.plain.as_slice(), &key) {
            Ok(at) => self.plain[at].1 = value,
            Err(at) => self.plain.insert(at, (key, value))?,
        }
        Ok(true)
    }

    fn remove(&mut self) -> bool {
        let key = self.dice.word(KEY_SIDES);
        let at = place(self.plain.as_slice(), &key);
        if let Ok(at) = at {
            self.plain.remove(at);
        }
        self.omap.remove(key.as_slice()) == at.is_ok()
    }

    fn remove_range(&mut self) -> bool {
        let from = self.dice.word(KEY_SIDES);
        let to = self.dice.word(KEY_SIDES);
        let start = start_from(self.plain.as_slice(), &from);
        let end = start_from(self.plain.as_slice(), &to).max(start);
        drop(self.plain.drain(start..end));
        self.omap.remove_range(from.as_slice(), to.as_slice()) == (end - start) as u64
    }

    // A value that would be longer than a word stays.
    fn splice(&mut self) -> Result<bool, OutOfMemory> {
        let key = self.dice.word(KEY_SIDES);
        let word = self.dice.word(9);
        let bytes = word.as_slice();
        let name = key.as_slice();
        let Some(old) = self.omap.get(name) else {
            return Ok(true);
        };
        let len = old.len() as u64;
        let start = self.dice.roll(len + 1);
        let count = self.dice.roll(len - start + 1);
        let room = len - count + bytes.len() as u64;
        if room > WORD_LEN as u64 {
            return Ok(true);
        }
        self.omap.widen(name, room)?;
        self.omap.splice(name, start, count, bytes);
        Ok(self.splice_plain(&key, start as usize, (start + count) as usize, &word))
    }

    fn splice_plain(&mut self, key: &Word, start: usize, end: usize, word: &Word) -> bool {
        match place(self.plain.as_slice(), key) {
            Ok(at) => {
                let new = self.plain[at].1.spliced(start, end, word);
                self.plain[at].1 = new;
                true
            }
            Err(_) => false,
        }
    }

    fn put_spare(&mut self) -> Result<bool, OutOfMemory> {
        let key = self.dice.word(KEY_SIDES);
        let value = self.dice.word(VALUE_SIDES);
        let name = key.as_slice();
        if name.len() > 16 || self.omap.get(name).is_some() {
            return Ok(true);
        }
        self.omap.reserve(1)?;
        self.omap.put_spare(name, value.as_slice());
        self.put_plain(key, value)
    }

    fn page(&mut self) -> Result<bool, OutOfMemory> {
        let after = self.dice.word(KEY_SIDES);
        let limit = self.dice.roll(200) as u32;
        let page = self.omap.page(self.alloc, after.as_slice(), limit)?;
        let start = start_after(self.plain.as_slice(), &after);
        let rest = &self.plain.as_slice()[start..];
        let count = rest.len().min(limit as usize);
        Ok(page.end == (count == rest.len()) && are_same(page.rows.as_slice(), &rest[..count]))
    }

    // Whether the map has each pair of the vector, and no other key.
    pub(super) fn agrees(&self) -> Result<bool, OutOfMemory> {
        for pair in &self.plain {
            if self.omap.get(pair.0.as_slice()) != Some(pair.1.as_slice()) {
                return Ok(false);
            }
        }
        let start = start_after(self.plain.as_slice(), &Word::empty());
        let all = self.omap.page(self.alloc, b"", 10_000)?;
        Ok(
            self.omap.is_empty() == self.plain.is_empty()
                && all.end
                && are_same(all.rows.as_slice(), &self.plain.as_slice()[start..]),
        )
    }
}
