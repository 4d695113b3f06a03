//! A task of stages.
ghost use Rattle.std.specs.Prelude.{◌≡◌, ◌≤◌, length, None};
ghost use Rattle.realm_door.specs.declared.task.TaskTurn.TheVariants.{More, Gives};

use crate::{Door, EventTask, Next, Staged, Taken, Task, TaskTurn};
use std::alloc::Global;
use turn_cell::DoorFault;

/// A task that makes the events of its stages one by one.
#[derive(Drop)]
pub struct Stepping<T> {
    pub stages: T,
    /// The fault with which a step stopped.
    pub fault: Option<DoorFault>,
}

impl<T: Staged + Drop> Stepping<T> {
    /// A task that makes the events of these stages.
    pub fn new(stages: T) -> Stepping<T>
        ensures { result ≡ record { stages = stages; fault = None } }
    {
        Stepping {
            stages,
            fault: None,
        }
    }
}

impl<T: Staged + Drop> Task for Stepping<T> {
    ghost use Rattle.realm_door.specs.Waiting.{UnlessFaulted};

    type Command = T::Command;

    type Outcome = T::Outcome;

    ghost command = { λ t. T.command t.stages };

    ghost fits = { λ t settings d. UnlessFaulted t.fault (T.fits t.stages settings d) };

    ghost means = { T.means };

    ghost is_ended = { λ t. T.is_over t.stages × (t.fault ≡ None) };

    ghost fault = { λ t. t.fault };

    ghost piece = { λ t. T.piece t.stages };

    ghost given = { λ t. T.given t.stages };

    ghost wants = { λ t. T.wants t.stages };

    fn turn<D: Door>(
        &mut self,
        alloc: Global,
        door: &mut D,
        moment: u64,
    ) -> Result<TaskTurn, DoorFault> {
        if let Some(fault) = self.fault {
            return Err(fault);
        }
        match self.stages.settle() {
            Next::Done => Ok(TaskTurn::Done),
            Next::Wants => Ok(TaskTurn::Wants),
            Next::Event => {
                self.event(alloc, door, moment)?;
                Ok(turn_giving(self.stages.piece()))
            }
        }
    }

    fn outcome(&self) -> Option<&T::Outcome> {
        match self.fault {
            None => self.stages.end(),
            Some(_) => None,
        }
    }
}

impl<T: Staged + Drop> EventTask for Stepping<T> {
    ghost is_ready = { λ t. T.is_ready t.stages };

    ghost steps = { λ t u. T.steps t.stages u.stages };

    fn event<D: Door>(
        &mut self,
        alloc: Global,
        door: &mut D,
        moment: u64,
    ) -> Result<(), DoorFault> {
        let Ok(Taken { op, rest }) = self.stages.split(alloc) else {
            self.fault = Some(DoorFault::OutOfMemory);
            return Err(DoorFault::OutOfMemory);
        };
        match door.step(alloc, op, moment) {
            Ok(answered) => {
                self.stages.take(alloc, rest, answered);
                Ok(())
            }
            Err(stopped) => {
                let fault = stopped.fault;
                drop(stopped);
                drop(rest);
                self.fault = Some(fault);
                Err(fault)
            }
        }
    }
}

/// The turn of an event that brought these bytes.
fn turn_giving(piece: &[u8]) -> TaskTurn
    ensures gives { 1 ≤ length piece.now → result ≡ Gives }
    ensures goes_on { length piece.now ≡ 0 → result ≡ More }
{
    if piece.is_empty() {
        TaskTurn::More
    } else {
        TaskTurn::Gives
    }
}
