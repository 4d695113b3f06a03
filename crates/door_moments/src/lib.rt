//! The events that an actor makes through a door, and the moments that are asked of a clock for them: one for each event,
//! and one more or not.
#![tactic(auto)]

mod acting;
mod laws;

pub use acting::{act, act_to_end};
pub use laws::asking_adds_up;
