//! Calls on a shard of a container's index: a change of a name is prepared, and then completed, cancelled
//! or settled by what is seen later (developer documents of the bucket index).
#![tactic(auto)]

mod cancelling;
mod completing;
mod header;
mod paging;
mod preparing;
mod rows;
mod settling;
mod statistics;
mod suggesting;
mod tags;
mod taking;

pub use cancelling::cancel;
pub use completing::complete;
pub use paging::page;
pub use preparing::prepare;
pub use statistics::stats;
pub use suggesting::{suggest, untimely};
