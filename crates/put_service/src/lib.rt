//! One PUT of an object, served through a door: its body goes from the intake into the task, which makes a tail of
//! each stripe as it fills.
#![tactic(auto)]

mod feeding;
mod put;
mod stepping;

pub use put::serve_put;
