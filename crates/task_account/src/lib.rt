//! The stages of requests for accounts: how many containers an account has, and which.
#![tactic(auto)]

mod asked;
mod counting;
mod names;
mod reply;
mod request;
mod rows;
mod stage;
mod task;

pub use reply::{AccountOutcome, AccountReply};
pub use request::{AccountCommand, AccountListing, AccountRequest};
pub use task::AccountTask;
