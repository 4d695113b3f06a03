//! Servers over connections in memory, doors of one cell on two threads, and the system's TCP, through the
//! public calls of their crates.
#![tactic(auto)]

#[cfg(test)]
mod doors;
#[cfg(test)]
mod fixtures;
#[cfg(test)]
mod ports;
#[cfg(test)]
mod servers;
