// When what is kept for objects that do not exist is forgotten: as soon as more than twice as many
// keys are kept as the last time were left, and a few more. So a step for each key falls to as many
// new ones, and emptied objects never pile up beyond the number of those that existed.
#[derive(Clone, Copy, Debug)]
pub(crate) struct Sweep {
    left: usize,
}

// So many more keys are kept at least before the next time.
const SPARE_KEYS: usize = 16;

impl Sweep {
    pub(crate) fn new() -> Self {
        Sweep { left: 0 }
    }

    // Whether it is time, with so many keys kept.
    pub(crate) fn is_due(&self, kept: usize) -> bool {
        kept / 2 > self.left.saturating_add(SPARE_KEYS)
    }

    // So many keys are left.
    pub(crate) fn note(&mut self, left: usize) {
        self.left = left;
    }
}
