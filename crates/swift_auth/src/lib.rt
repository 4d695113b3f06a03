//! Who asks, and what they may do: the users of the gateway, their tokens, the read and write lists of
//! containers, and the policy.
#![tactic(auto)]

mod access_list;
mod fault;
mod laws;
mod policy;
mod user;
mod users;
mod users_text;

pub use fault::UsersFault;
pub use laws::{
    absent_and_private_look_alike, granted_by_the_sentences, judged_without_a_container,
};
pub use policy::{Deed, Rule, Verdict, judge};
pub use user::User;
pub use users::Users;
