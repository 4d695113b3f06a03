//! GET and HEAD of an object, over any door.
#![tactic(auto)]

mod answer;
mod laws;
mod piece;
mod reading;
mod request;
mod stage;
mod task;

pub use laws::{
    pieces_are_the_bytes_shown, pieces_follow_one_another, the_reply_is_shown_from_the_head_on,
};
pub use request::GetRequest;
pub use task::GetTask;
