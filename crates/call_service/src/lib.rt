//! What serving a request on an object does beside its task: it reads the body piece by piece, and writes whole
//! texts. The words say what a request that was served comes to, and what a fault leaves.
#![tactic(auto)]

mod body;
mod connection;
mod fault;
mod served;
mod write;

pub use body::{Piece, drop_body, next_piece};
pub use connection::{Connected, Connection};
pub use fault::{ServeFault, fault_of};
pub use served::Served;
pub use write::{closing, send, send_both, send_broken_body};
