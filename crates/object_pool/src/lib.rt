//! One zone's objects, each of bytes in frames, attributes and rows.
#![tactic(auto)]

mod error;
mod guesses;
mod kept_key;
mod lookup;
mod object;
mod place;
mod pool;
mod shelf;
mod sweep;
#[cfg(test)]
mod tests;

pub use error::NoSpace;
pub use omap_pages::{OutOfMemory, Page};
pub use place::Place;
pub use pool::Pool;
pub use rgw_types::{Bytes, Key, PartNumber};
