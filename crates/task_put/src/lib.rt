//! A PUT of an object: its body, stripe by stripe, its stages, and the task that makes its events through a
//! door.
#![tactic(auto)]

mod advancing;
mod body;
mod closing;
mod etag;
mod keeping;
mod laws;
mod splitting;
mod stage;
mod staged;
mod task;

pub use body::{Progress, PutBody};
pub use etag::has_other_etag;
pub use keeping::{
    bodies_keep_where_a_put_stands, others_keep_where_a_put_stands,
    puts_make_their_events_in_order, reads_of_the_row_keep_where_a_put_stands,
    tails_keep_where_a_put_stands,
};
pub use laws::{a_body_in_tails_is_shown, a_body_is_its_parts, a_changed_head_is_the_answer};
pub use stage::{Draft, PutRequest, Stage};
pub use task::PutTask;
