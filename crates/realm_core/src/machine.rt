ghost use Rattle.std.specs.Prelude.{◌≡◌, ◌↔◌, ◌++◌, ◌∷◌, ◌<◌, ◌^◌, [], length, Some, IfErr, IfOk, OnErr, OnOk};
ghost use Rattle.realm_core.specs.Answers.{Tells, event_of, reply_after};
ghost use Rattle.realm_core.specs.Minding.{MayDo};
ghost use Rattle.realm_law.specs.Invariant.{RealmHolds};
ghost use Rattle.realm_model.specs.Histories.{Legal, world_of};
ghost use Rattle.turn_cell.specs.declared.machine.DoorFault.TheVariants.{Worn};

use crate::realm::Realm;
use realm_door::{Answered, handed_back};
use realm_model::{Actor, Event, Op, Settings};
use std::alloc::Global;
use turn_cell::{DoorFault, Machine, Stopped};

/// The most events of a realm.
const MOST_EVENTS: u64 = 1 << 62;

impl Realm {
    /// Does one operation of an actor, which adds exactly its event to the history. The reply is the
    /// step's in the state that the history leaves at the moment; a zone that the realm hasn't got is
    /// answered that nothing is there. Where the operation is allowed in a legal history, every part of the
    /// realm's invariant holds again. Where it stops, nothing changes, and the operation comes back.
    pub fn act(
        &mut self,
        alloc: Global,
        actor: &mut Actor,
        op: Op,
        moment: u64,
    ) -> Result<Answered, Stopped<Op>>
        ensures reply { IfOk result (λ a. a.reply ≡ reply_after self.old.settings self.old.history op moment) }
        ensures made { IfOk result (λ a. self.new.history ≡ self.old.history ++ event_of actor.old op moment a.reply ∷ []) }
        ensures tells { IfOk result (λ a. Tells actor.old op a actor.new self.new.history) }
        ensures legal { OnOk result (Legal self.old.settings self.old.history
            → MayDo self.old.settings self.old.history actor.old op
            → Legal self.old.settings self.new.history) }
        ensures holds { OnOk result (Legal self.old.settings self.old.history
            → MayDo self.old.settings self.old.history actor.old op
            → RealmHolds self.old.settings (world_of self.old.settings self.new.history)) }
        ensures room { OnOk result (length self.old.history < 2 ^ 62) }

        ensures stopped { OnErr result ((self.new ≡ self.old) × (actor.new ≡ actor.old)) }
        ensures handed_back { IfErr result (λ s. s.op ≡ Some op) }
        ensures worn { IfErr result (λ s. (s.fault ≡ Worn) ↔ (length self.old.history ≡ 2 ^ 62)) }

        ensures settings { self.new.settings ≡ self.old.settings }
    {
        if self.events() == MOST_EVENTS {
            return Err(Stopped {
                fault: DoorFault::Worn,
                op: Some(op),
            });
        }
        let Ok(reply) = self.change(alloc, actor, &op, moment) else {
            return Err(Stopped {
                fault: DoorFault::OutOfMemory,
                op: Some(op),
            });
        };
        actor.used = true;
        let back = handed_back(op, &reply);
        Ok(Answered {
            number: self.events(),
            clock: self.clock(),
            reply,
            back,
        })
    }
}

impl Machine for Realm {
    ghost use Rattle.std.specs.Prelude.{refl};
    ghost use Rattle.realm_core.specs.Answers.{Tells, event_of};
    ghost use Rattle.realm_core.specs.Minding.{MayDo, others_change_nothing};
    ghost use Rattle.realm_model.specs.Histories.{Legal};

    type Op = Op;

    type Answer = Answered;

    type Actor = Actor;

    type Event = Event;

    type Fixed = Settings;

    ghost fixed = { λ r. r.settings };

    ghost history = { λ r. r.history };

    ghost pass = { λ a. a.pass };

    ghost by = { λ e. e.pass };

    ghost event = { λ a op moment answer. event_of a op moment answer.reply };

    ghost lawful = { Legal };

    ghost allowed = { MayDo };

    ghost tells = { Tells };

    fn apply(
        &mut self,
        alloc: Global,
        actor: &mut Actor,
        op: Op,
        moment: u64,
    ) -> Result<Answered, Stopped<Op>> {
        let answered = self.act(alloc, actor, op, moment)?;
        Ok(answered)
    }

    ghost by_actor = { λ a op moment answer. refl };

    ghost others = { λ settings log between a op. others_change_nothing settings log between a op };
}
