//! What is asked of a listing, its rows, and what they must be.
#![tactic(auto)]

mod command;
mod key;
mod known;
mod laws;
mod row;

pub use command::ListCommand;
pub use key::Key;
pub use laws::{keys_rise_with_names, other_names_change_nothing};
pub use row::{AccountRow, AccountRows, ListedRow, ListedRows, ListedThing};
