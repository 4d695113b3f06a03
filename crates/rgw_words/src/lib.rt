//! The words of the command line: which run of the program they ask for.
#![tactic(auto)]

mod fault;
mod laws;
mod named_users;
mod options;
mod run_words;
mod serve_words;
mod values;

pub use fault::WordsFault;
pub use laws::{
    users_stand_behind_each_command, words_ask_for_one_command,
    words_without_users_are_judged_exactly,
};
pub use run_words::{RunWords, read_once, read_script};
pub use serve_words::{ServeWords, Serving, read_serve};
