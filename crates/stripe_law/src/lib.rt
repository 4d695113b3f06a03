//! What holds of stripes and frames after each event of a legal history.
#![tactic(auto)]

mod known;
mod laws;

pub use known::an_object_is_read_while_it_is_replaced;
pub use laws::{
    a_stripe_is_in_one_place, allowed_reads_are_answered, an_object_is_its_parts,
    answered_reads_show_the_slot, events_keep_what_holds, named_tails_exist,
    stripes_and_frames_hold, what_was_made_stays,
};
