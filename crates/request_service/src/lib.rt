//! One request that wants no body, served through a door: its task makes its events, the bytes that are shown go
//! from the task to the sink as they come, and the reply is written. What requests differ in is a `Request`.
#![tactic(auto)]

mod account;
mod beside;
mod command;
mod container;
mod ending;
mod get;
mod listing;
mod request;
mod serve;
mod write;

pub use account::Accounts;
pub use beside::Beside;
pub use command::serve_command;
pub use container::Containers;
pub use ending::Ending;
pub use listing::Listing;
pub use request::Request;
pub use serve::serve_unfed;
