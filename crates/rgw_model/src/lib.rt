//! What is stored under a name: contents, stamps and slots.
#![tactic(auto)]

mod laws;
mod moment;
mod slot;

pub use date_words::LATEST_MOMENT;
pub use laws::a_change_is_stamped_later;
pub use moment::counted_moment;
pub use slot::{Content, Slot};
