//! The jobs of an administrator, run to their end over a door.
#![tactic(auto)]

mod jobs;

pub use jobs::run_job;
