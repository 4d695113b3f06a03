//! The requests of a connection (RFC 9112): their heads one by one, and the bytes of each body, from
//! a source that gives bytes in pieces.
#![tactic(auto)]

mod buffer;
mod fault;
mod heads;
mod intake;
mod laws;
mod next_bytes;
mod next_chunk;
mod next_head;
mod scan;

pub use fault::IntakeFault;
pub use http_model::{Framing, Head};
pub use intake::Intake;
pub use laws::{
    a_body_goes_wrong_where_its_bytes_do, a_later_byte_changes_no_whole_request,
    a_wrong_body_has_one_reading, requests_have_one_reading,
};
