//! Listings show their container: the rows of a listing are those of a map in which each name has what
//! the container had under it at one event of the call. And what heads show may be suggested.
#![tactic(auto)]

mod laws;

pub use laws::{calm_listings_are_of_the_map, heads_may_be_suggested, listings_are_of_a_map};
