//! What holds of the whole realm after every event of a legal history, as one invariant, and what
//! follows for those who read counts of containers.
#![tactic(auto)]

mod laws;

pub use laws::{
    counts_without_tags_are_of_settled_names, each_event_keeps_the_realm,
    settled_containers_count_their_maps, the_realm_holds, untagged_shards_count_their_names,
};
