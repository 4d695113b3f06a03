//! What came of a round.
use crate::timing::Timed;
use std::alloc::Global;

/// What came of one round, chunk by chunk.
#[derive(Drop)]
pub struct Round {
    pub events: u64,
    pub refused: u64,
    // The nanoseconds of an event in each chunk.
    nanos: Vec<u64>,
}

impl Round {
    pub fn new(alloc: Global) -> Round {
        Round {
            events: 0,
            refused: 0,
            nanos: Vec::new(alloc),
        }
    }

    /// A chunk of events more, of which so many were refused.
    pub fn add(&mut self, events: Timed, refused: u64) -> anyhow::Result<()> {
        self.nanos.push(events.nanos())?;
        self.events = self.events.saturating_add(events.count);
        self.refused = self.refused.saturating_add(refused);
        Ok(())
    }

    /// Puts the fastest chunk first.
    pub fn sort(&mut self) -> anyhow::Result<()> {
        self.nanos.sort()?;
        Ok(())
    }

    /// The nanoseconds of an event in the fastest chunk.
    pub fn least(&self) -> u64 {
        self.nanos.first().copied().unwrap_or(0)
    }

    /// The nanoseconds of an event in half of the chunks, or less.
    pub fn median(&self) -> u64 {
        self.nanos.get(self.nanos.len() / 2).copied().unwrap_or(0)
    }
}
