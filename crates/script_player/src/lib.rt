//! One actor of a script at work: its request or its job goes on event by event, through any door, and may stop
//! anywhere.
#![tactic(auto)]

mod account;
mod asker;
mod check;
mod container;
mod get;
mod laws;
mod list;
mod play;
mod player;
mod put;
mod unfed;

pub use laws::{lines_have_few_bytes, others_keep_a_player, others_keep_what_an_end_means};
pub use player::{Gone, Player};
