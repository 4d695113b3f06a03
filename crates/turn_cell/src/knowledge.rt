//! What a pass knows.
use crate::machine::Machine;
use std::collections::LinkedList;

/// The seat of a pass, with which it makes atomic steps.
pub type Seat<M> = atomic_table::Seat<M, Knowledge<<M as Machine>::Event, <M as Machine>::Fixed>>;

/// What a pass knows. No value of it is made.
pub struct Knowledge<E, F> {
    /// The pass's number, and how many numbers from it on are its own.
    pub number: u64,
    pub room: u64,
    /// The history that it has seen: it ends with the pass's own last event, if that made one.
    pub seen: LinkedList<E>,
    /// The history that the value had when the pass last took it.
    pub found: LinkedList<E>,
    /// Whether it has the value now.
    pub has_turn: bool,
    /// What no event changes.
    pub fixed: F,
}
