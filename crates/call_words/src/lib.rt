//! What the requests of a connection come to: calls, each with what its reply rests on in the one
//! history of the realm.
#![tactic(auto)]

mod container;
mod laws;
mod reply;

pub use container::{push_account_outcome, push_container_outcome};
pub use laws::{every_input_has_a_named_end, right_replies_stay_right};
pub use reply::{push_broken_body, push_list_outcome, push_map_reply, push_outcome};
