use list_words::AccountRows;

/// The reply to a request for an account.
#[derive(Debug, Drop)]
pub enum AccountReply {
    /// Sums over all its containers. Each stops at the end of 64 bits.
    Counted {
        containers: u64,
        objects: u64,
        bytes: u64,
    },
    /// The rows that were asked for.
    Listed(AccountRows),
}

/// How a task of an account ended.
#[derive(Debug, Drop)]
pub enum AccountOutcome {
    Done(AccountReply),
    /// 16 events were answered that the shard no longer serves.
    MovedOften,
}
