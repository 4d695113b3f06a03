//! An update of a container's index: a change of one head under a tag, prepared, announced, made, and completed, and what
//! is tried again of it.
#![tactic(auto)]

mod advancing;
mod head_change;
mod laws;
mod splitting;
mod stage;
mod update;

pub use advancing::place_shown;
pub use head_change::HeadChange;
pub use laws::{
    a_row_names_its_shard, an_update_may_go_on, answers_are_of_the_map,
    changes_keep_where_an_update_stands, completions_keep_where_an_update_stands,
    only_rows_refuse_updates, others_keep_where_an_update_stands,
    reads_of_the_row_keep_where_an_update_stands, tags_keep_where_an_update_stands,
    updates_make_their_events_in_order,
};
pub use stage::{After, Change, Rest, Stage, Target, Tried, Unfinished, Updated};
pub use update::IndexUpdate;
