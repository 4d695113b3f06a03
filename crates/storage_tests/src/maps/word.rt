// Short texts that are copied, so that the steps beside a vector take little memory.
ghost use Rattle.std.specs.Prelude.{◌≤◌, length};

// The most letters of a word.
pub(super) const WORD_LEN: usize = 32;

// Letters with zeros behind them. No letter is 0, so words are in the order of their letters.
#[derive(Clone, Copy, PartialEq, Eq, PartialOrd, Ord)]
pub(super) struct Word {
    letters: [u8; WORD_LEN],
    len: usize,
}

impl Word {
    pub(super) fn empty() -> Word {
        Word {
            letters: [0; WORD_LEN],
            len: 0,
        }
    }

    pub(super) fn as_slice(&self) -> &[u8]
        ensures { length result.now ≤ 32 }
    {
        let len = self.len.min(WORD_LEN);
        &self.letters[..len]
    }

    // Puts a letter behind, where there is a place for it.
    pub(super) fn push(&mut self, letter: u8) {
        let at = self.len;
        if at < WORD_LEN {
            self.letters[at] = letter;
            self.len = at + 1;
        }
    }

    fn push_all(&mut self, letters: &[u8]) {
        for letter in letters {
            self.push(*letter);
        }
    }

    // The word with another in the place of the letters from one place to below a second.
    pub(super) fn spliced(&self, start: usize, end: usize, other: &Word) -> Word {
        let old = self.as_slice();
        let start = start.min(old.len());
        let end = end.min(old.len());
        let mut new = Word::empty();
        new.push_all(&old[..start]);
        new.push_all(other.as_slice());
        new.push_all(&old[end..]);
        new
    }
}
