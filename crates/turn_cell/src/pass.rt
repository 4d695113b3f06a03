//! Passes.
ghost use Rattle.std.specs.Prelude.{◌≡◌, ◌+◌, ◌^◌, ◌≤◌};

use crate::knowledge::Seat;
use crate::machine::Machine;
use std::marker::Model;

/// The right to make events in one cell, under a number that no other pass has. Contracts see which
/// cell it is of, its numbers, the history that it has seen, and the one that its last step found.
#[derive(Drop)]
pub struct Pass<M: Machine> {
    pub(crate) number: u64,
    pub(crate) room: u64,
    pub(crate) seat: Seat<M>,
    // What the cell's word was after the last step through this pass.
    pub(crate) expected: u64,
}

impl<M: Machine> Model for Pass<M> {
    ghost use Rattle.turn_cell.specs.Views.{PassView};
    ghost use Rattle.turn_cell.specs.Plays.{IsAtRest};

    ghost Value = { PassView M.Event M.Fixed };

    ghost view = { λ p. record {
      cell = record { id = p.seat.table_id; fixed = p.seat.me.0.fixed };
      number = p.number;
      room = p.room;
      seen = p.seat.me.0.seen;
      found = p.seat.me.0.found;
    } };

    ghost invariant = { λ p. IsAtRest M.by M.lawful p.number p.room p.seat.me };
}

impl<M: Machine> Pass<M> {
    /// The pass's number, which its actors and its events have.
    pub fn number(&self) -> u64
        ensures value { result ≡ self.now.number }
        ensures range { (1 ≤ result) × (result ≤ 2 ^ 62) }
    {
        self.number
    }

    /// How many numbers are the pass's own, from `number` on.
    pub fn room(&self) -> u64
        ensures value { result ≡ self.now.room }
        ensures range { (1 ≤ result) × (self.now.number + result ≤ 2 ^ 62 + 1) }
    {
        self.room
    }
}
