//! Ports that give connections, and the net that opens them and takes them back, as traits with a
//! written meaning; in memory; and thin adapters over the system's TCP. Beside them what a server passes
//! on its way: a gate for each connection, and a pause between two rounds of jobs.
#![tactic(auto)]

mod announced;
mod gate;
mod listed;
mod outside;
mod pause;
mod tcp_halves;
mod tcp_port;

pub use announced::AnnouncedNet;
pub use gate::{Gate, OpenGate};
pub use listed::{ListConnection, ListNet, ListPort, SharedSink};
pub use outside::{AcceptFault, Net, Port};
pub use pause::{NoPause, Pause, SystemPause};
pub use tcp_halves::{TcpReader, TcpWriter};
pub use tcp_port::{TcpNet, TcpPort};
