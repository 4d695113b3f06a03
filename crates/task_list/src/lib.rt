//! The task of a listing: the pages of a container's shards, merged by name.
#![tactic(auto)]

mod cursor;
mod merge;
mod merging;
mod progress;
mod request;
mod stage;
mod task;

pub use request::ListRequest;
pub use task::ListTask;
