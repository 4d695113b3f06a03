//! The realm in definitions: the objects of its zones, operations on them as events, what each event
//! answers and leaves, what an actor may do next, and which histories are legal.
#![tactic(auto)]

mod actor;
mod clock;
mod event;
mod known;
mod laws;
mod op;
mod refused;
mod settings;

pub use actor::Actor;
pub use clock::clock_at;
pub use event::{Event, Reply};
pub use known::{
    cancelled_closing, container_lifecycle, expired_tag_is_prepared_again,
    full_container_is_not_removed, late_suggestion_is_refused, no_space, older_completion_loses,
    row_is_changed, stopped_writer_is_repaired, tails_are_read,
};
pub use laws::{
    a_step_adds_its_number, a_tail_is_made_once, an_event_touches_one_object, an_own_event_is_done,
    computed_histories_are_legal, deciding_events_stand, events_are_numbered,
    events_follow_from_the_history, frames_are_free_or_taken, maps_are_what_heads_hold,
    no_event_lowers_a_number, others_change_no_phase, replies_suit_their_operations,
};
pub use op::Op;
pub use refused::{
    these_changes_are_refused, these_closings_are_refused, these_others_are_refused,
    these_rows_are_refused, these_steps_are_refused, these_tails_are_refused,
};
pub use settings::Settings;
