ghost use Rattle.std.specs.Prelude.{◌≡◌, Some};
ghost use Rattle.object_words.specs.Keys.{shard_key};
ghost use Rattle.task_container.specs.Closings.{begun_closing, has_ended_by, is_still, next_below, own_number, owns, with_closed, with_row};

use object_words::{Bucket, Busy, ShardKey};

/// A number that an own swap set in the row of an instance.
#[derive(Clone, Copy, Debug, PartialEq, Eq)]
pub struct OwnClosing {
    pub container: u64,
    pub instance: u64,
    pub number: u64,
}

/// A closing of a container that is under way.
#[derive(Debug, Drop)]
pub struct Closing {
    /// The row, in which the number is set.
    pub row: Bucket,
    /// The number under which the shards are closed.
    pub number: u64,
    /// How many shards were closed, by their numbers.
    pub closed: u32,
}

/// What comes of a shard that was not closed, once the closing is given up.
#[derive(Debug, Drop)]
pub enum Due {
    /// This object is in it.
    NotEmpty(object_words::ObjectName),
    /// A change of this object is under way.
    Unsettled(object_words::ObjectName),
    /// This number holds it.
    Held(u64),
    /// The number is fenced: the closing begins anew.
    Fenced,
}

impl OwnClosing {
    /// Whether this is the number that is set in the row.
    pub fn is_in(self, row: &Bucket, busy: Busy) -> bool
        ensures { result ≡ owns (Some self) row.now busy }
    {
        busy.closing
            && self.number == busy.number
            && self.container == row.id
            && self.instance == row.instance
    }
}

impl Closing {
    /// A row of this version in which the next number was set.
    pub fn begun(row: Bucket, version: u64) -> Closing
        ensures { result ≡ begun_closing row version }
    {
        let number = row.number.saturating_add(1);
        let Bucket {
            id,
            owner,
            shared,
            instance,
            shards,
            meta,
            readers,
            writers,
            ..
        } = row;
        Closing {
            row: Bucket {
                id,
                owner,
                version,
                shared,
                number,
                busy: Some(Busy {
                    number,
                    closing: true,
                }),
                instance,
                shards,
                meta,
                readers,
                writers,
            },
            number,
            closed: 0,
        }
    }

    /// The number that was set.
    pub fn own_number(&self) -> OwnClosing
        ensures { result ≡ own_number self.now }
    {
        OwnClosing {
            container: self.row.id,
            instance: self.row.instance,
            number: self.number,
        }
    }

    /// The shard of this number.
    pub fn key(&self, shard: u32) -> ShardKey
        ensures { result ≡ shard_key self.now.row.id self.now.row.instance shard }
    {
        ShardKey {
            container: self.row.id,
            instance: self.row.instance,
            shard,
        }
    }

    /// One shard more was closed.
    pub fn with_closed(self) -> Closing
        ensures { result ≡ with_closed self }
    {
        let Closing {
            row,
            number,
            closed,
        } = self;
        let closed = next_below(closed, row.shards.get());
        Closing {
            row,
            number,
            closed,
        }
    }

    /// The row was read again.
    pub fn with_row(self, row: Bucket) -> Closing
        ensures { result ≡ with_row self row }
    {
        let Closing {
            row: old,
            number,
            closed,
        } = self;
        drop(old);
        Closing {
            row,
            number,
            closed,
        }
    }

    /// Whether the number is still set in the row, which names the same shards.
    pub fn is_still(&self, row: &Bucket) -> bool
        ensures { result ≡ is_still self.now row.now }
    {
        row.shards.get() == self.row.shards.get()
            && match row.busy {
                Some(busy) => self.own_number().is_in(row, busy),
                None => false,
            }
    }

    /// Whether the row names the same instance, gave the number, and it is not in progress there.
    pub fn has_ended(&self, row: &Bucket) -> bool
        ensures { result ≡ has_ended_by self.now row.now }
    {
        row.id == self.row.id
            && row.instance == self.row.instance
            && self.number <= row.number
            && match row.busy {
                Some(busy) => busy.number > self.number,
                None => true,
            }
    }
}

/// The next number up to a limit.
pub fn next_below(n: u32, most: u32) -> u32
    ensures { result ≡ next_below n most }
{
    if n < most { n + 1 } else { n }
}
