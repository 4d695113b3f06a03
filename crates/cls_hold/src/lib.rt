//! The making of a shard of a container's index, what holds it, and its end (Ceph manual, Dynamic Bucket Index
//! Resharding).
#![tactic(auto)]

mod closing;
mod first;
mod header;
mod making;
mod releasing;
mod shutting;
mod taking;

pub use closing::close;
pub use making::make;
pub use releasing::release;
pub use shutting::shut;
