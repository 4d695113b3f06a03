//! A container that a program makes through a door before anything is asked of it.
#![tactic(auto)]

mod preset;

pub use preset::preset_bucket;
