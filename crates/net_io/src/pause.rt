//! The pause between two rounds of jobs.
use std::rt::Clock;
use std::thread;
use std::time::Duration;

/// Lets time pass for a thread that works in rounds, so that the others get on meanwhile.
pub trait Pause {
    fn pause(&self);
}

/// Lets none pass.
#[derive(Clone, Copy, Debug)]
pub struct NoPause;

impl Pause for NoPause {
    fn pause(&self) {}
}

/// Lets so many milliseconds pass on the system's clock.
#[derive(Drop)]
pub struct SystemPause<R> {
    rt: R,
    millis: u64,
}

impl<R> SystemPause<R> {
    pub fn new(rt: R, millis: u64) -> Self {
        SystemPause { rt, millis }
    }
}

impl<R: Clock> Pause for SystemPause<R> {
    fn pause(&self) {
        thread::sleep(&self.rt, Duration::from_millis(self.millis));
    }
}
