//! An ordered map from bytes to bytes whose rows have room to grow, and which can have spare rows
//! ready: with these it changes and grows with no memory taken.
#![tactic(auto)]

mod error;
mod leaf;
mod leaves;
mod lookup;
mod omap;
mod page;
mod place;
mod row;
mod spares;

pub use error::OutOfMemory;
pub use omap::Omap;
pub use page::{ByteRows, Page};
pub use spares::{SPARE_KEY_LEN, SPARE_VALUE_LEN};
