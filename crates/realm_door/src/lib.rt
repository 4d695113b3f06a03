//! Doors, through which actors make events in the history of one realm, and tasks, which do so turn by
//! turn. Nothing of the realm itself is here: what is proved over a door holds over every door.
#![tactic(auto)]

mod back;
mod door;
mod event_task;
mod laws;
mod next;
mod staged;
mod stepping;
mod task;

pub use back::handed_back;
pub use door::{Answered, Door};
pub use event_task::EventTask;
pub use laws::{
    actors_stay_counted, growth_adds_up, others_change_no_doings, others_wait,
    own_events_extend_what_is_told, waits_add_up,
};
pub use next::{Next, Taken};
pub use staged::Staged;
pub use stepping::Stepping;
pub use task::{Task, TaskTurn};
