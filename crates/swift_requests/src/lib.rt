//! What the head of a request asks, and of whom: the login or the command, or the refusal that needs no container, and
//! what becomes of the bytes behind the head.
#![tactic(auto)]

mod account;
mod asked;
mod asker;
mod body;
mod changes;
mod command;
mod container;
mod etag;
mod form;
mod known;
mod known_accounts;
mod laws;
mod login;
mod metadata;
mod method;
mod object;
mod range;
mod refusal;

pub use asked::{Asked, UnfedCommand, read_asked};
pub use asker::asker_of;
pub use body::{BodyUse, body_use, closes, unwanted};
pub use known::{
    bodies_are_used_so, dates_are_read_so, etags_are_read_so, gets_ask_so, heads_are_refused_so,
    listings_ask_so, metadata_is_read_so, objects_are_asked_for_so, objects_are_named_so,
    puts_ask_so, ranges_are_read_so,
};
pub use known_accounts::{
    accounts_are_asked_so, askers_are_known_so, changes_are_refused_so, containers_are_changed_so,
    containers_are_looked_at_so, logins_are_read_so, names_are_counted_so, targets_are_told_so,
    their_bodies_are_dropped_so,
};
pub use laws::{lists_are_those_of_the_standard, only_users_of_the_account_may};
