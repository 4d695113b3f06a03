//! What holds of the index after every event of a legal history: its parts as definitions, that each
//! event keeps them, and what follows for those who read.
#![tactic(auto)]

mod laws;

pub use laws::{
    a_change_has_a_new_stamp, a_container_that_is_gone_stays_gone, a_removed_container_is_empty,
    a_shard_that_is_left_takes_no_change, each_event_keeps_the_index, settled_names_are_shown,
    shards_of_rows_serve, statistics_are_sums, the_index_holds,
};
