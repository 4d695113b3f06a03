//! The words of tasks: who asks for what, how a task ends, and what each end means in the account of the
//! events that its actor made; the jobs of an administrator, and how they end.
#![tactic(auto)]

mod asker;
mod command;
mod job;
mod known;
mod laws;
mod limits;
mod outcome;
mod reply;
mod span;

pub use asker::Asker;
pub use command::{BodyEnd, GetCommand, PutCommand};
pub use job::{Job, JobOutcome};
pub use known::{
    conditions_are_answered_so, known_actors_ended_so, known_writers_ended_so,
    puts_are_answered_so, ranges_are_answered_so, rows_are_refused_so,
};
pub use laws::outcomes_stay;
pub use limits::{MOST_EXPIRED, MOST_MOVED, PAGE_LIMIT};
pub use outcome::Outcome;
pub use reply::{MapReply, Refusal};
pub use span::{ByteRange, Span, bytes_taken};
