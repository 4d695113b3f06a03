//! Threads that sleep until the value is given back.
use crossbeam_utils::sync::{EventCount, Key};
use std::sync::atomic::AtomicBool;
use std::sync::atomic::Ordering::SeqCst;

/// Wakes one sleeper at a time. A thread that has announced its sleep and gets the value asks for the
/// next wake, so while it is on its way there, nobody else pays for one.
#[derive(Drop)]
pub(crate) struct Sleepers {
    given_back: EventCount,
    // Whether a thread may sleep while none that was woken is on its way to the value.
    wake_asked: AtomicBool,
}

impl Sleepers {
    pub(crate) fn new() -> Sleepers {
        Sleepers {
            given_back: EventCount::new(),
            wake_asked: AtomicBool::new(false),
        }
    }

    /// Call it first, then look whether the value is out, and wait only if it is.
    pub(crate) fn announce(&self) -> Key<'_> {
        let key = self.given_back.prepare_wait();
        self.ask_for_wake();
        key
    }

    /// The next `wake_one` wakes a sleeper.
    pub(crate) fn ask_for_wake(&self) {
        self.wake_asked.store(true, SeqCst);
    }

    /// Call it after the value was given back.
    pub(crate) fn wake_one(&self) {
        if self.wake_asked.load(SeqCst) && self.wake_asked.swap(false, SeqCst) {
            self.given_back.notify_one();
        }
    }
}
