//! A run of the gateway: what its words ask, over any input, output, clock and net, and over those of the
//! system.
#![tactic(auto)]

mod once_end;
mod program;
mod running;
mod scripted;
mod served;
mod status;
mod system;

pub use once_end::OnceEnd;
pub use program::run;
pub use status::Status;
pub use system::run_on_system;
