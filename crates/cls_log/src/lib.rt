//! The log of a zone's data, in an object of its own (Ceph manual, Multisite): a row more at its end, and
//! the rows above a position.
#![tactic(auto)]

mod data_log;
mod laws;
mod rows;

pub use data_log::{add, after};
pub use laws::{
    a_log_object_has_the_rows_of_its_log, no_object_is_the_empty_log, pages_of_logs_are_these,
};
pub use object_pool::OutOfMemory;
