//! The replies to calls that nobody else's events come between are those of the bucket maps, folded over
//! the calls from what stood before them.
#![tactic(auto)]

mod laws;

pub use laws::{
    calls_fold_over_the_maps, folds_tell_the_same, no_stripe_is_missed, only_room_is_wanting,
    which_bodies_are_left_is_no_choice,
};
