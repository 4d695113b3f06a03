//! Scripts in words: what each line of one asks, and the texts of its replies.
#![tactic(auto)]

mod actor;
mod laws;
mod line;
mod no_line;
mod outcome;
mod reading;
mod replies;
mod verbs;
mod words;

pub use actor::ActorName;
pub use laws::lines_have_one_meaning;
pub use line::{Line, ScriptBody, Verb};
pub use outcome::ActorOutcome;
pub use reading::read_line;
pub use replies::{
    push_bad_line, push_count_line, push_job_outcome, push_named_line, push_outcome,
    push_reply_line, push_request_outcome,
};
