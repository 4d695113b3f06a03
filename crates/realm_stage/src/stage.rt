ghost use Rattle.std.specs.Prelude.{◌≡◌, IfOk, Some, length};
ghost use Rattle.realm_core.specs.Realms.{new_realm};

use realm_core::{OutOfMemory, Realm};
use realm_door::{Answered, Door};
use realm_model::{Actor, Op, Settings};
use std::alloc::Global;
use std::marker::Model;
use turn_cell::{DoorFault, Stopped};

/// A realm that nobody else has, and the actor that acts in it. Contracts see the realm.
#[derive(Drop)]
pub struct RealmStage {
    realm: Realm,
    settings: Settings,
    actor: Actor,
}

impl Model for RealmStage {
    ghost use Rattle.std.specs.Prelude.{◌≡◌};
    ghost use Rattle.realm_core.specs.Realms.{RealmView};

    ghost Value = { RealmView };

    ghost view = { λ s. s.realm };

    ghost invariant = { λ s. s.realm.settings ≡ s.settings };
}

impl RealmStage {
    /// A realm without events, and the first actor of pass 1. It fails only for want of memory.
    pub fn new(alloc: Global, settings: &Settings) -> Result<RealmStage, OutOfMemory>
        ensures { IfOk result (λ stage. stage ≡ new_realm settings.now) }
    {
        Ok(RealmStage {
            realm: Realm::new(alloc, settings)?,
            settings: *settings,
            actor: Actor::new(1),
        })
    }

    /// What the realm is set to.
    pub fn settings(&self) -> Settings
        ensures { result ≡ self.now.settings }
    {
        self.settings
    }

    /// How many events the realm has.
    pub fn events(&self) -> u64
        ensures { result ≡ length self.now.history }
    {
        self.realm.events()
    }

    /// The next event is by the actor of this number in pass 1.
    pub fn act_as(&mut self, count: u64)
        ensures { self.new ≡ self.old }
    {
        self.actor = Actor {
            pass: 1,
            count,
            used: false,
        };
    }
}

/// The operation comes back.
fn stopped(fault: DoorFault, op: Op) -> Stopped<Op>
    ensures { (result.fault ≡ fault) × (result.op ≡ Some op) }
{
    Stopped {
        fault,
        op: Some(op),
    }
}

/// An operation of another zone than the first is not taken.
impl Door for RealmStage {
    ghost use Rattle.std.specs.Prelude.{false, [], length};

    ghost tells = { ⊥ };

    ghost told = { λ s. record { pass = 0; count = 0; used = false; seen = [] } };

    ghost found = { λ s. [] };

    ghost settings = { λ s. s.settings };

    ghost home = { λ s. 0 };

    ghost last = { λ s. length s.history };

    fn begin(&mut self) {
        self.actor = Actor {
            pass: self.actor.pass,
            count: self.actor.count.saturating_add(1),
            used: false,
        };
    }

    fn step(&mut self, alloc: Global, op: Op, moment: u64) -> Result<Answered, Stopped<Op>> {
        self.settings.has_zone_one();
        if op.zone() != 1 {
            return Err(stopped(DoorFault::Worn, op));
        }
        let answered = self.realm.act(alloc, &mut self.actor, op, moment)?;
        Ok(answered)
    }
}
