//! Bodies that fit the free frames find room.
#![tactic(auto)]

mod laws;

pub use laws::bodies_that_fit_find_room;
