//! What a gateway meets outside itself: a source of bytes, a sink for bytes and a clock, as traits
//! with a written meaning; each in memory; and thin adapters over the standard streams and the
//! system's clock.
//!
//! Code that is generic over these traits cannot raise a count of faults by itself, nor lower it. So a
//! contract that allows a fault only where the count rose refuses a body that gives up, and one that
//! allows a good end only where it did not rise refuses a body that tells nobody of a fault.
#![tactic(auto)]

mod adapters;
mod clock;
mod copying;
mod ends;
mod outside;
mod sink;
mod source;
mod writing;

pub use adapters::{ReaderSource, SystemClock, WriterSink, standard_input, standard_output};
pub use clock::StepClock;
pub use copying::copy_front;
pub use ends::Ends;
pub use outside::{Clock, Failed, Sink, Source};
pub use sink::{CountingSink, VecSink};
pub use source::{SliceSource, WholeSource};
pub use writing::write_all;
