//! A repair settles its container: where others leave it alone, and each change under way is overdue, none
//! is left; and from then on each name is listed and counted as its head, until the next is prepared.
#![tactic(auto)]

mod known;
mod laws;

pub use known::a_known_repair_meets_the_premises;
pub use laws::{repairs_settle_their_container, settled_containers_are_shown};
