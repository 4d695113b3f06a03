//! The server: one thread accepts the connections of a port, workers serve them, and one thread does the
//! jobs of the realm in rounds, each through a pass of the one cell in which the realm is.
#![tactic(auto)]

mod accepting;
mod posts;
mod preparing;
mod rounds;
mod server;
mod working;

pub use accepting::ServeEnd;
pub use server::{ServePlan, serve};
