ghost use Rattle.std.specs.Prelude.{◌≡◌, [], false};
ghost use Rattle.turn_door.specs.Views.{door_of};

use realm_core::Realm;
use realm_door::{Answered, Door};
use realm_model::{Actor, Op};
use std::alloc::Global;
use std::marker::Model;
use std::sync::Wait;
use turn_cell::{Pass, Stopped, Turn};

/// A door through a pass of the cell in which the realm is. Others make events between its steps.
#[derive(Drop)]
pub struct TurnDoor<'a, R> {
    rt: &'a R,
    cell: &'a Turn<Realm>,
    pass: Pass<Realm>,
    actor: Actor,
}

impl<'a, R> Model for TurnDoor<'a, R> {
    ghost use Rattle.std.specs.Prelude.{◌≡◌};
    ghost use Rattle.turn_door.specs.Views.{TurnState, door_of};

    ghost Value = { TurnState };

    ghost view = { λ d. door_of d.pass d.actor };

    ghost invariant = { λ d. (d.pass.cell ≡ d.cell.now) × (d.actor.pass ≡ d.pass.number) };
}

impl<'a, R> TurnDoor<'a, R> {
    /// A door whose actor is the first of a pass.
    pub fn new(rt: &'a R, cell: &'a Turn<Realm>, pass: Pass<Realm>) -> Self
        requires { pass.cell ≡ cell.now }
        ensures { result ≡ door_of pass (record { pass = pass.number; count = 0; used = false }) }
    {
        let actor = Actor::new(pass.number());
        TurnDoor {
            rt,
            cell,
            pass,
            actor,
        }
    }
}

impl<R: Wait> Door for TurnDoor<'_, R> {
    ghost use Rattle.std.specs.Prelude.{length};

    ghost tells = { Unit {0} };

    ghost told = { λ d. d.told };

    ghost found = { λ d. d.found };

    ghost settings = { λ d. d.settings };

    ghost home = { λ d. 0 };

    ghost last = { λ d. length d.told.seen };

    fn begin(&mut self) {
        if self.actor.used {
            self.actor.count += 1;
            self.actor.used = false;
        }
    }

    fn step(&mut self, alloc: Global, op: Op, moment: u64) -> Result<Answered, Stopped<Op>> {
        let answered = self.cell.step(self.rt, alloc, &mut self.pass, &mut self.actor, op, moment)?;
        Ok(answered)
    }
}
