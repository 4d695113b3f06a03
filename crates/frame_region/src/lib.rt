//! Frames of one size in a fixed block, which are taken and given back in runs.
#![tactic(auto)]

mod access;
mod block;
mod cells;
mod region;
mod run;
mod walks;

pub use region::{NoFrames, Region};
pub use run::FrameRun;
pub use std::alloc::AllocError as OutOfMemory;
