//! The bytes of a shard's entries and of its header.
#![tactic(auto)]

mod codec;
mod entry;
mod header;
mod laws;
mod log_row;
mod numbers;

pub use codec::{decode_entry, encode_entry, read_entry};
pub use entry::{
    EntryFront, FRONT_MOST, TAG_LEN, front, tag_at, write_front, write_tag, write_tagged,
};
pub use header::{HEADER_LEN, ShardHeader, decode_header, encode_header};
pub use laws::{
    a_header_has_one_spelling, a_log_row_has_one_spelling, an_entry_has_one_spelling,
    entries_are_written_so, log_keys_are_in_order, log_rows_are_written_so,
};
pub use log_row::{
    LOG_KEY_LEN, LOG_ROW_MOST, decode_what, log_key, position_of, write_bucket_row, write_name_row,
    write_shard_row, write_what,
};
pub use numbers::u64_at;
pub use std::alloc::AllocError as OutOfMemory;
