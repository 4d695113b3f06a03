//! A realm whose events are noted.
ghost use Rattle.std.specs.Prelude.{◌≡◌, false, [], length};

use crate::note::{Note, answer_of, name_of};
use crate::words::{account, bucket_name};
use container_preset::preset_bucket;
use realm_door::{Answered, Door, Task, TaskTurn};
use realm_model::{Op, Settings};
use realm_stage::RealmStage;
use std::alloc::Global;
use turn_cell::{DoorFault, Stopped};

/// Each event is noted until it is printed.
#[derive(Drop)]
pub struct Play {
    stage: RealmStage,
    actor: u64,
    notes: Vec<Note>,
}

impl Door for Play {
    ghost tells = { ⊥ };

    ghost told = { λ p. record { pass = 0; count = 0; used = false; seen = [] } };

    ghost found = { λ p. [] };

    ghost settings = { λ p. p.stage.settings };

    ghost home = { λ p. 0 };

    ghost last = { λ p. length p.stage.history };

    fn begin(&mut self) {
        self.act_as(self.actor.saturating_add(1));
    }

    fn step(&mut self, alloc: Global, op: Op, moment: u64) -> Result<Answered, Stopped<Op>> {
        if self.notes.reserve(1).is_err() {
            return Err(Stopped {
                fault: DoorFault::OutOfMemory,
                op: Some(op),
            });
        }
        let asked = name_of(&op);
        let answered = self.stage.step(alloc, op, moment)?;
        // There is room for it.
        let _noted = self.notes.push(Note {
            number: answered.number,
            clock: answered.clock,
            actor: self.actor,
            asked,
            told: answer_of(&answered.reply),
        });
        Ok(answered)
    }
}

impl Play {
    /// A realm without events.
    pub fn new(alloc: Global, settings: &Settings) -> anyhow::Result<Play> {
        Ok(Play {
            stage: RealmStage::new(alloc, settings)?,
            actor: 0,
            notes: Vec::new(alloc),
        })
    }

    /// What the realm is set to.
    pub fn settings(&self) -> Settings {
        self.stage.settings()
    }

    /// Makes the container, as the actor of this number.
    pub fn preset<R: Print>(&mut self, rt: &R, alloc: Global, actor: u64) -> anyhow::Result<()> {
        let (bucket, owner) = (bucket_name(alloc)?, account(alloc)?);
        let settings = self.stage.settings();
        self.act_as(actor);
        preset_bucket(alloc, &settings, self, &bucket, &owner, 0)?;
        self.tell(rt)
    }

    /// A turn of a task, whose actor has this number.
    pub fn turn<T: Task, R: Print>(
        &mut self,
        rt: &R,
        alloc: Global,
        task: &mut T,
        actor: u64,
        moment: u64,
    ) -> anyhow::Result<TaskTurn> {
        self.act_as(actor);
        let turn = task.turn(alloc, self, moment)?;
        self.tell(rt)?;
        Ok(turn)
    }

    /// The next event is by the actor of this number.
    fn act_as(&mut self, actor: u64)
        ensures stage { self.new.stage ≡ self.old.stage }
    {
        self.actor = actor;
        self.stage.act_as(actor);
    }

    /// Prints the events since the last time.
    fn tell<R: Print>(&mut self, rt: &R) -> anyhow::Result<()> {
        for note in self.notes.as_slice() {
            let Note {
                number,
                clock,
                actor,
                asked,
                told,
            } = *note;
            println!(rt; "{number} clock {clock} actor {actor} {asked}: {told:?}")?;
        }
        self.notes.clear();
        Ok(())
    }
}
