//! One value that many threads change in turns, with one history for all of them.
//!
//! The value is a [`Machine`]: each operation that it does is one event, and contracts see it as the
//! list of its events. A [`Turn`] is the cell that holds it. A thread steps through a [`Pass`] of the
//! cell: [`Turn::step`] waits until the value is at home, does one operation and gives it back, with
//! one event more or unchanged. A pass knows a beginning of the one history, in which its own events
//! stand once each. [`Turn::split`] makes passes for further threads; no two passes have one number.
//!
//! A step that meets no other thread costs two atomic updates and no system call. A thread that waits
//! looks for a while, then sleeps in the kernel. A step may wait for ever, and nothing is said of when
//! it gets its turn.
#![tactic(auto)]

mod cell;
mod knowledge;
mod machine;
mod pass;
mod rule;
mod sleepers;

pub use cell::Turn;
pub use machine::{DoorFault, Machine, OutOfMemory, Stopped};
pub use pass::Pass;
