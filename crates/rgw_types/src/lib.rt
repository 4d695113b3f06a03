//! The types that every layer shares and no stage changes: lists, texts, pairs, the stamps of
//! changes, and the keys, part numbers and manifests of a zone's pool.
#![tactic(auto)]

mod items;
mod pairs;
mod pool_key;
mod stamp;
mod stripes;
mod text;
mod trace;

pub use items::{Bytes, Items};
pub use pairs::Pairs;
pub use pool_key::{Key, LAST_PART, PartNumber, keys_are_in_one_order};
pub use stamp::{Stamp, stamps_are_in_one_order};
pub use stripes::{Manifest, tails_are_counted_so};
pub use text::Text;
pub use trace::Trace;
