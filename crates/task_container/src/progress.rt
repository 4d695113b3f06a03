ghost use Rattle.std.specs.Prelude.{◌≡◌};
ghost use Rattle.task_container.specs.Stages.{first_seen, id_of, one_made, one_moved, one_raced, with_begun};

use crate::closing::{Closing, Due, OwnClosing};
use crate::counting::Counting;
use crate::outcome::ContainerOutcome;
use object_words::Bucket;

/// Which operation comes next.
#[derive(Debug, Drop)]
pub enum Stage {
    /// The row is read.
    Look,
    /// The header of a shard is read.
    Count(Counting),
    /// The next shard of a new container is made.
    MakeShard,
    /// The row of a new container is made.
    Make,
    /// This row is changed by what was sent.
    Change(Bucket),
    /// The next number is set in this row, for a closing.
    Begin(Bucket),
    /// The next shard is closed.
    Close(Closing),
    /// The row is taken away.
    Remove(Closing),
    /// The row is read again, which was another by then.
    LookToRemove(Closing),
    /// This shard of the row that was taken away is shut.
    Shut {
        row: Bucket,
        shard: u32,
    },
    /// The number is cleared, since a shard was not closed.
    Clear(Closing, Due),
    /// The row is read again, which was another by then.
    LookToClear(Closing, Due),
    /// This shard, which was closed, is released.
    Release {
        closing: Closing,
        shard: u32,
        due: Due,
    },
    Ended(ContainerOutcome),
}

/// What a task keeps over all its events.
#[derive(Clone, Copy, Debug, PartialEq, Eq)]
pub struct Tally {
    /// The number of its first event, which a new container has.
    pub first: Option<u64>,
    /// How many shards were made.
    pub made: u32,
    /// How many answers were Moved or Closed.
    pub moved: u32,
    /// How many answers were Raced.
    pub raced: u32,
    /// The number that the last own swap set, where it set one.
    pub begun: Option<OwnClosing>,
}

/// Where a task stands.
#[derive(Debug, Drop)]
pub struct Progress {
    pub stage: Stage,
    pub tally: Tally,
}

impl Tally {
    /// After an event of this number.
    pub fn with_event(self, number: u64) -> Tally
        ensures { result ≡ first_seen self number }
    {
        match self.first {
            Some(_) => self,
            None => Tally {
                first: Some(number),
                made: self.made,
                moved: self.moved,
                raced: self.raced,
                begun: self.begun,
            },
        }
    }

    /// The number that a new container has.
    pub fn id(self) -> u64
        ensures { result ≡ id_of self }
    {
        match self.first {
            Some(number) => number,
            None => 0,
        }
    }

    /// One shard more was made.
    pub fn with_made(self) -> Tally
        ensures { result ≡ one_made self }
    {
        Tally {
            first: self.first,
            made: self.made.saturating_add(1),
            moved: self.moved,
            raced: self.raced,
            begun: self.begun,
        }
    }

    /// One answer more was Moved or Closed.
    pub fn with_moved(self) -> Tally
        ensures { result ≡ one_moved self }
    {
        Tally {
            first: self.first,
            made: self.made,
            moved: self.moved.saturating_add(1),
            raced: self.raced,
            begun: self.begun,
        }
    }

    /// One answer more was Raced.
    pub fn with_raced(self) -> Tally
        ensures { result ≡ one_raced self }
    {
        Tally {
            first: self.first,
            made: self.made,
            moved: self.moved,
            raced: self.raced.saturating_add(1),
            begun: self.begun,
        }
    }

    /// An own swap set this number, or cleared what an own one had set.
    pub fn with_begun(self, begun: Option<OwnClosing>) -> Tally
        ensures { result ≡ with_begun self begun }
    {
        Tally {
            first: self.first,
            made: self.made,
            moved: self.moved,
            raced: self.raced,
            begun,
        }
    }
}
