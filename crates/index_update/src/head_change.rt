//! Changes of a head, each kind as the operation that makes it.
ghost use Rattle.std.specs.Prelude.{◌≡◌};
ghost use Rattle.index_update.specs.Changes.{head_op, change_back};

use object_words::{Conditions, Guard, NewHead, ObjectName};
use realm_model::Op;

/// A change of a head.
#[derive(Drop)]
pub enum HeadChange {
    /// It is given content, where the conditions are met.
    Write { new: NewHead, when: Conditions },
}

impl HeadChange {
    /// Its operation, under a guard in a container.
    pub(crate) fn into_op(self, zone: u8, container: u64, name: ObjectName, guard: Guard) -> Op
        ensures { result ≡ head_op zone container name guard self }
    {
        match self {
            HeadChange::Write { new, when } => Op::HeadWrite {
                zone,
                container,
                name,
                guard,
                new,
                when,
            },
        }
    }
}

/// The change, where its operation comes back.
pub(crate) fn change_back(back: Option<Op>) -> Option<HeadChange>
    ensures { result ≡ change_back back }
{
    match back {
        Some(
            Op::HeadWrite {
                name,
                new,
                when,
                ..
            },
        ) => {
            drop(name);
            Some(HeadChange::Write { new, when })
        }
        other => {
            drop(other);
            None
        }
    }
}
