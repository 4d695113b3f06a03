//! The replies of the Swift API as bytes: heads, and the rows of listings.
#![tactic(auto)]

mod account;
mod bare;
mod broken;
mod container;
mod fields;
mod head;
mod known;
mod known_refusals;
mod listed;
mod listing;
mod login;
mod moment;
mod object;
mod plain;
mod refusal;
mod reply;

pub use account::{json_accounts, push_account_counted, push_account_listed};
pub use bare::{push_accepted, push_created, push_done};
pub use broken::push_bad_request;
pub use container::push_counted;
pub use head::write_head;
pub use known::{
    containers_are_replied_so, listings_are_replied_so, moments_are_written_so,
    objects_are_replied_so, rows_are_written_so,
};
pub use known_refusals::{first_refusals_are_replied_so, later_refusals_are_replied_so};
pub use list_words::{AccountRow, AccountRows};
pub use listed::push_listed;
pub use listing::json_rows;
pub use login::push_let_in;
pub use object::{push_same, push_shown_head, push_span_head, push_stored};
pub use plain::{plain_accounts, plain_rows};
pub use refusal::push_refusal;
pub use reply::{
    ContainerCounts, Denial, Invalid, ListingForm, ShownObject, ShownSpan, SwiftRefusal,
    SwiftReply, TargetKind,
};
pub use std::alloc::AllocError as OutOfMemory;
