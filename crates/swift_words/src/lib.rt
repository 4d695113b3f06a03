//! The words of a request of the Swift API: what its target names and asks for, and the places
//! that Destination and X-Copy-From name.
#![tactic(auto)]

mod fault;
mod part;
mod path;
mod place;
mod query;
mod target;

pub use fault::WordFault;
pub use place::read_place;
pub use query::Query;
pub use target::{Target, read_target};
