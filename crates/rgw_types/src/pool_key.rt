ghost use Rattle.std.specs.Prelude.{◌≡◌};
ghost use Rattle.rgw_types.specs.declared.pool_key.Key.{Key as KeyOf};
ghost use Rattle.rgw_types.specs.Keys.{key_order};

use crate::Text;
use std::alloc::AllocError;
use std::marker::Model;

/// The greatest number of a part of an object: the tails of the largest object in the shortest stripes.
pub const LAST_PART: u32 = 335_544_319;

/// The number of a part of an object, at most [`LAST_PART`]. Part 0 is the head, and part k the tail k.
#[derive(Clone, Copy, Debug, PartialEq, Eq, PartialOrd, Ord)]
pub struct PartNumber {
    number: u32,
}

impl Model for PartNumber {
    ghost use Rattle.std.specs.Prelude.{ℕ, ◌≤◌};
    ghost use Rattle.rgw_types.specs.declared.pool_key.TheConstants.{LAST_PART};

    ghost Value = { ℕ };

    ghost view = { λ part. part.number };

    ghost invariant = { λ part. part.number ≤ LAST_PART };

    ghost inverse = { λ number. record { number = number } };
}

impl PartNumber {
    ghost use Rattle.std.specs.Prelude.{◌≡◌, ◌≤◌};

    /// The part with this number.
    pub fn new(number: u32) -> PartNumber
        requires { number ≤ LAST_PART }
        ensures { result ≡ number }
    {
        PartNumber { number }
    }

    /// Its number.
    pub fn get(self) -> u32
        ensures value { result ≡ self }
        ensures bound { result ≤ LAST_PART }
    {
        self.number
    }
}

/// The name of an object of a zone's pool.
///
/// Keys are ordered by kind, as the variants stand here, and then by their fields, each number as
/// a number and a name byte by byte.
#[derive(Debug, PartialEq, Eq, PartialOrd, Ord, Drop)]
pub enum Key {
    /// Rows of the containers and of the accounts, and the log of the containers' changes.
    Root,
    /// Entries of a container's objects by name.
    Shard {
        container: u64,
        instance: u64,
        shard: u32,
    },
    /// The first bytes of an object, with its attributes.
    Head {
        container: u64,
        name: Text,
    },
    /// The bytes of one further stripe of an object.
    Tail {
        write: u64,
        part: PartNumber,
    },
    /// Stripes that are to be dropped.
    Queue,
    /// The log of changed shards.
    Changes,
    /// How far a peer's changes are taken over.
    Sync {
        peer: u8,
    },
}

impl Clone for Key {
    ghost use Rattle.std.specs.Prelude.{◌≡◌};

    ghost is_clone = { λ key copy. copy ≡ key };

    fn clone(&self) -> Result<Key, AllocError> {
        let copy = match self {
            Key::Root => Key::Root,
            Key::Shard {
                container,
                instance,
                shard,
            } => Key::Shard {
                container: *container,
                instance: *instance,
                shard: *shard,
            },
            Key::Head { container, name } => Key::Head {
                container: *container,
                name: name.clone()?,
            },
            Key::Tail { write, part } => Key::Tail {
                write: *write,
                part: *part,
            },
            Key::Queue => Key::Queue,
            Key::Changes => Key::Changes,
            Key::Sync { peer } => Key::Sync { peer: *peer },
        };
        Ok(copy)
    }
}

/// Keys are ordered by kind, as the variants of [`Key`] stand, and those of one kind by their fields.
pub fn keys_are_in_one_order()
    ensures { (a b : KeyOf) → ⟦<Key as Ord>⟧.cmp a b ≡ key_order a b }
{}
