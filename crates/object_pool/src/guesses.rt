// Under which number an object was kept last, by what its key comes to. A guess may be wrong, so whoever takes it looks at
// the key that is there; it spares a search through keys that are in no cache.
use rgw_types::Key;
use std::alloc::Global;

// So many guesses stand side by side: with the place of the next one they take a line of a processor's cache.
const SIDE_BY_SIDE: usize = 5;

// Where a key's object may be: its number, and the first of its frames.
#[derive(Clone, Copy, Debug)]
pub(crate) struct Spot {
    pub(crate) number: u32,
    pub(crate) frame: u32,
}

#[derive(Clone, Copy, Debug)]
struct Guess {
    sum: u32,
    spot: Spot,
}

// No object is guessed to have such a number, nor such a frame.
const NO_SPOT: Spot = Spot {
    number: u32::MAX,
    frame: u32::MAX,
};

const NO_GUESS: Guess = Guess {
    sum: 0,
    spot: NO_SPOT,
};

// Guesses side by side, and which of them gives way next.
#[derive(Clone, Copy, Debug)]
struct Group {
    guesses: [Guess; SIDE_BY_SIDE],
    oldest: u32,
}

const NO_GUESSES: Group = Group {
    guesses: [NO_GUESS; SIDE_BY_SIDE],
    oldest: 0,
};

impl Group {
    fn spot_of(&self, sum: u32) -> Spot {
        match self.guesses.iter().find(|guess| guess.sum == sum) {
            Some(guess) => guess.spot,
            None => NO_SPOT,
        }
    }

    // In the place of what was guessed for the same sum, or else of the oldest.
    fn put(&mut self, guess: Guess) {
        for held in self.guesses.iter_mut() {
            if held.sum == guess.sum {
                *held = guess;
                return;
            }
        }
        let oldest = self.oldest as usize;
        if let Some(place) = self.guesses.get_mut(oldest) {
            *place = guess;
        }
        self.oldest = if oldest + 1 < SIDE_BY_SIDE {
            self.oldest + 1
        } else {
            0
        };
    }
}

// The number of groups is a power of two, or none.
#[derive(Debug, Drop)]
pub(crate) struct Guesses {
    groups: Vec<Group>,
}

impl Guesses {
    pub(crate) fn new(alloc: Global) -> Self {
        Guesses {
            groups: Vec::new(alloc),
        }
    }

    // Where the key's object may be.
    pub(crate) fn spot_of(&self, key: &Key) -> Spot {
        let sum = sum_of(key);
        match self.groups.get(place_of(sum, self.groups.len())) {
            Some(group) => group.spot_of(sum),
            None => NO_SPOT,
        }
    }

    // Guesses this number from now on. There are as many groups as objects, unless memory is
    // wanting, so that hardly any guess gives way.
    pub(crate) fn note(&mut self, alloc: Global, objects: usize, key: &Key, number: usize) {
        if objects >= self.groups.len() {
            self.grow(alloc);
        }
        if let Ok(number) = u32::try_from(number) {
            let sum = sum_of(key);
            let frame = NO_SPOT.frame;
            let spot = Spot { number, frame };
            put(&mut self.groups, Guess { sum, spot });
        }
    }

    // Guesses this frame from now on, where a number is guessed.
    pub(crate) fn note_frame(&mut self, key: &Key, frame: u32) {
        let sum = sum_of(key);
        let place = place_of(sum, self.groups.len());
        if let Some(group) = self.groups.get_mut(place) {
            for guess in group.guesses.iter_mut() {
                if guess.sum == sum {
                    guess.spot.frame = frame;
                }
            }
        }
    }

    // Twice as many groups, with the same guesses.
    fn grow(&mut self, alloc: Global) {
        let groups = self.groups.len().saturating_mul(2).max(1);
        let Ok(mut grown) = vec![in alloc; NO_GUESSES; groups] else {
            return;
        };
        for group in self.groups.iter() {
            put_held(&mut grown, group);
        }
        self.groups = grown;
    }
}

// Puts the guesses that a group holds.
fn put_held(groups: &mut Vec<Group>, held: &Group) {
    for guess in held.guesses.iter() {
        if guess.spot.number != NO_SPOT.number {
            put(groups, *guess);
        }
    }
}

// Puts a guess in its group.
fn put(groups: &mut Vec<Group>, guess: Guess) {
    let place = place_of(guess.sum, groups.len());
    if let Some(group) = groups.get_mut(place) {
        group.put(guess);
    }
}

// The group of a sum among so many.
fn place_of(sum: u32, groups: usize) -> usize {
    sum as usize & groups.saturating_sub(1)
}

// What a key comes to.
fn sum_of(key: &Key) -> u32 {
    let sum = match key {
        Key::Root => 1,
        Key::Shard {
            container,
            instance,
            shard,
        } => mixed(mixed(mixed(2, *container), *instance), u64::from(*shard)),
        Key::Head { container, name } => sum_of_bytes(mixed(3, *container), name.as_bytes()),
        Key::Tail { write, part } => mixed(mixed(4, *write), u64::from(part.get())),
        Key::Queue => 5,
        Key::Changes => 6,
        Key::Sync { peer } => mixed(7, u64::from(*peer)),
    };
    ((sum ^ (sum >> 32)) & 0xFFFF_FFFF) as u32
}

fn sum_of_bytes(start: u64, bytes: &[u8]) -> u64 {
    bytes
        .iter()
        .fold(start, |sum, byte| mixed(sum, u64::from(*byte)))
}

// One more part. The factor is 2^64 divided by the golden ratio.
fn mixed(sum: u64, part: u64) -> u64 {
    (sum ^ part)
        .wrapping_mul(0x9E37_79B9_7F4A_7C15)
        .rotate_left(29)
}
