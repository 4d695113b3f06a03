//! The lines of an input, one by one, from a source that gives bytes in pieces.
#![tactic(auto)]

mod fault;
mod front;
mod laws;
mod piece;
mod reader;

pub use fault::LineFault;
pub use laws::{first_lines_go_first, last_lines_end};
pub use reader::{INPUT_LIMIT, LINE_LIMIT, LineReader, Next};
