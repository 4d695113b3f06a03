//! The root of a zone: the rows of its containers by name and by account, with a log of their changes. How a row is
//! written, and the calls on the object that keeps them.
#![tactic(auto)]

mod accounts;
mod codec;
mod kept;
mod laws;
mod log_rows;
mod owned;
mod pages;
mod reader;
mod record;

pub use codec::{decode_bucket, encode_bucket};
pub use laws::{a_bucket_row_has_one_spelling, a_new_zone_has_no_root};
pub use pages::{account_page, bucket_page};
pub use record::{read, swap};
pub use std::alloc::AllocError as OutOfMemory;
