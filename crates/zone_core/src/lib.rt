//! The objects of one zone: one operation on one of them.
#![tactic(auto)]

mod heads;
mod laws;
mod performing;
mod records;
mod shards;
mod steps;

pub use laws::{a_new_pool_has_the_opening, events_leave_room, operations_keep_other_zones};
pub use performing::perform;
