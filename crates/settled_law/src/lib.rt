//! What clients are told of a container in which nothing is under way: its listings and its counts are
//! those of its map; and that a container which was removed is empty.
#![tactic(auto)]

mod laws;

pub use laws::{
    counts_of_settled_containers_are_of_their_maps,
    listings_of_settled_containers_are_of_their_maps, removed_containers_are_empty,
};
