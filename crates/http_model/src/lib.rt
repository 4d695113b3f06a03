//! Requests and replies of HTTP/1.1 as types and definitions: heads, framings, how the bytes of a
//! connection end, and the texts of replies.
#![tactic(auto)]

mod field;
mod form;
mod framing;
mod head;
mod reading;
mod reply;

pub use field::{Field, Fields, field_count, field_value};
pub use form::{waits_for_continue, wants_close};
pub use framing::framing_of;
pub use head::{Framing, Head, REQUEST_LIMIT, Request};
pub use reading::{FIELD_LIMIT, HEAD_LIMIT, HeadFault, copy_fields, read_head};
pub use reply::{BadRequest, ReplyForm, ReplyHead, StreamEnd};
