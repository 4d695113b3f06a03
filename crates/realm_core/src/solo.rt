ghost use Rattle.std.specs.Prelude.{◌≡◌};
ghost use Rattle.realm_core.specs.Solo.{MayEnter, door_of};
ghost use Rattle.realm_door.specs.Steps.{IsCounted};

use crate::realm::Realm;
use realm_door::{Answered, Door};
use realm_model::{Actor, Op};
use std::alloc::Global;
use turn_cell::Stopped;

/// A door to a realm that nobody else has: the realm, and the actor that acts now. Each step is one event
/// of the realm, and none of another comes between.
#[derive(Drop)]
pub struct SoloDoor<'a> {
    pub realm: &'a mut Realm,
    pub actor: &'a mut Actor,
}

impl<'a> SoloDoor<'a> {
    /// A door through which this actor acts next. The realm's history is legal, the actor is the last of its
    /// pass that made an event or one after it, and `used` says whether it made one.
    pub fn new(realm: &'a mut Realm, actor: &'a mut Actor) -> SoloDoor<'a>
        requires { MayEnter realm.old actor.old }
        ensures realm { (result.realm.now ≡ realm.entry.now) × (result.realm.ghost_name ≡ realm.entry.ghost_name) }
        ensures actor { (result.actor.now ≡ actor.entry.now) × (result.actor.ghost_name ≡ actor.entry.ghost_name) }
        ensures counted { IsCounted (door_of realm.entry.now actor.entry.now) }
    {
        // It has at most 2^62 events.
        let _events = realm.events();
        SoloDoor { realm, actor }
    }
}

impl<'a> Door for SoloDoor<'a> {
    ghost use Rattle.std.specs.Prelude.{length};
    ghost use Rattle.realm_core.specs.Solo.{door_of};

    ghost tells = { Unit {0} };

    ghost alone = { Unit {0} };

    ghost told = { λ d. door_of d.realm.now d.actor.now };

    ghost found = { λ d. d.realm.now.history };

    ghost settings = { λ d. d.realm.now.settings };

    ghost home = { λ d. d.realm.ghost_name };

    ghost last = { λ d. length d.realm.now.history };

    fn begin(&mut self) {
        if self.actor.used {
            self.actor.count += 1;
            self.actor.used = false;
        }
    }

    fn step(&mut self, alloc: Global, op: Op, moment: u64) -> Result<Answered, Stopped<Op>> {
        let answered = self.realm.act(alloc, self.actor, op, moment)?;
        Ok(answered)
    }
}
