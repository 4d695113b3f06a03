//! One connection of the gateway: requests on objects, containers and accounts in, replies out, through a door
//! of the realm.
#![tactic(auto)]

mod by_head;
mod laws;
mod request;
mod serve;
mod turn;

pub use call_service::ServeFault;
pub use laws::a_connection_has_one_reading;
pub use serve::{ConnEnd, Served, serve_connection};
