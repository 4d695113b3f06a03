use object_words::{Bucket, ObjectName};
use task_words::Refusal;

/// Why a request for a container is refused.
#[derive(Debug, Drop)]
pub enum ContainerRefusal {
    /// By what its row says, or since there is none under the account.
    ByRow(Refusal),
    /// Another account owns the container.
    NotYours,
    /// This object is in it.
    NotEmpty { name: ObjectName },
    /// A change of this object is under way.
    Unsettled { name: ObjectName },
}

/// The reply to a request for a container.
#[derive(Debug, Drop)]
pub enum ContainerReply {
    /// How many objects it has, and the sum of their sizes.
    Counted {
        row: Bucket,
        objects: u64,
        bytes: u64,
    },
    /// It was made.
    Made,
    /// It was there, and was changed where something was sent.
    Accepted,
    /// It was changed.
    Changed,
    /// It was removed.
    Removed,
    Refused(ContainerRefusal),
}

/// How a request for a container ended.
#[derive(Debug, Drop)]
pub enum ContainerOutcome {
    Done(ContainerReply),
    /// A reshard or a closing of this number is under way.
    Busy { id: u64 },
    /// 16 events were answered that the shard no longer serves.
    MovedOften,
    /// 16 changes of the row were answered that it is another by now.
    RacedOften,
}
