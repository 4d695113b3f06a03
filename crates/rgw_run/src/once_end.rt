//! How a run of `once` ended.
use gateway::{ServeFault, Served};
use turn_cell::DoorFault;

/// How a run of `once` ended.
#[derive(Clone, Copy, Debug, PartialEq, Eq)]
pub enum OnceEnd {
    /// Memory was wanting before there was a realm.
    Unmade,
    /// The container was not made.
    Unbegun(DoorFault),
    /// The connection was served to its end.
    Ended(Served),
    /// The connection was left at a fault.
    Stopped(ServeFault),
}
