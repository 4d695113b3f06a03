use object_words::BucketName;

/// What an administrator may have done in a zone.
#[derive(Debug, Drop)]
pub enum Job {
    /// To put right what the index of a container says of names whose changes were left open.
    Check { container: BucketName },
}

/// How a job ended.
#[derive(Clone, Copy, Debug, PartialEq, Eq)]
pub enum JobOutcome {
    /// So many entries of the index were put right, and so many open changes were seen and are left.
    Repaired { applied: u64, left: u64 },
    /// There is no such container.
    NoBucket,
}
