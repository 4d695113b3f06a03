//! A realm: the objects of its zones, with the one history of all that was done to them.
#![tactic(auto)]

mod machine;
mod realm;
mod sizes;
mod solo;
mod zones;

pub use object_pool::OutOfMemory;
pub use realm::Realm;
pub use solo::SoloDoor;
