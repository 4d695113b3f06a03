//! Scripts: actors of one realm that are started by name, taken on event by event, stopped anywhere, and whose
//! replies are printed.
#![tactic(auto)]

mod active;
mod cast;
mod ending;
mod fault;
mod line;
mod making;
mod running;
mod script;

pub use fault::ScriptFault;
pub use running::{ScriptPlan, run_script};
