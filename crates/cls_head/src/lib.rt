//! The head of an object and its tails: how they are kept in objects of a pool, and the calls on them.
#![tactic(auto)]

mod conditions;
mod content;
mod front;
mod heads;
mod laws;
mod pieces;
mod tails;

pub use heads::{read, write};
pub use laws::{
    a_head_has_one_spelling, a_tail_has_one_spelling, heads_are_written_so,
    what_is_absent_is_no_object,
};
pub use object_pool::OutOfMemory;
pub use tails::{make_tail, read_tail};
