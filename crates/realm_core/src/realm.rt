ghost use Rattle.std.specs.Prelude.{◌≡◌, ◌++◌, ◌∷◌, ◌<◌, ◌≤◌, ◌^◌, [], length, IfOk, OnErr};
ghost use Rattle.realm_core.specs.Answers.{event_of, reply_after};
ghost use Rattle.realm_core.specs.Realms.{new_realm};
ghost use Rattle.realm_model.specs.Histories.{state_of};
ghost use Rattle.realm_model.specs.Settings.{IsSettings};

use crate::sizes::sizes_fit;
use crate::zones::{new_zones, perform_in};
use event_scroll::{Noted, Scroll};
use object_pool::{OutOfMemory, Pool};
use realm_model::{Actor, Op, Reply, Settings, clock_at};
use std::alloc::Global;
use std::marker::{Brand, Model};

/// The objects of all zones, with the history of the operations on them. Contracts see a realm as its
/// settings and that history: what it holds is what the history leaves.
#[derive(Drop)]
pub struct Realm {
    settings: Settings,
    // Zone 1 first.
    zones: Vec<Pool>,
    scroll: Scroll,
    clock: u64,
}

impl Model for Realm {
    ghost use Rattle.realm_core.specs.Realms.{HasHistory, RealmView};

    ghost Value = { RealmView };

    ghost view = { λ r. record { settings = r.settings; history = r.scroll } };

    ghost invariant = { λ r. HasHistory r.settings r.zones.items r.scroll r.clock };
}

// Notes the event of an operation with its reply.
fn note<B: Noted>(scroll: &mut Scroll, actor: &Actor, op: &Op, moment: u64, reply: &Reply)
    requires room { length scroll.old < 2 ^ 62 }
    requires event { B.event ≡ event_of actor.now op.now moment reply.now }
    ensures { scroll.new ≡ scroll.old ++ event_of actor.now op.now moment reply.now ∷ [] }
{
    scroll.note::<B>();
}

impl Realm {
    /// A realm without events and without objects. It fails only for want of memory.
    pub fn new(alloc: Global, settings: &Settings) -> Result<Realm, OutOfMemory>
        ensures { IfOk result (λ realm. realm ≡ new_realm settings.now) }
    {
        Ok(Realm {
            settings: *settings,
            zones: new_zones(alloc, settings)?,
            scroll: Scroll::new(alloc)?,
            clock: 0,
        })
    }

    /// The greatest moment that its events brought, in microseconds.
    pub fn clock(&self) -> u64
        ensures { result ≡ (state_of self.now.settings self.now.history).clock }
    {
        self.clock
    }

    /// How many events it has: at most 2^62.
    pub fn events(&self) -> u64
        ensures value { result ≡ length self.now.history }
        ensures most { result ≤ 2 ^ 62 }
    {
        self.scroll.len()
    }

    /// Does one operation, which adds its event to the history. The reply is the step's in the state that
    /// the history leaves. For want of memory nothing changes.
    pub(crate) fn change(
        &mut self,
        alloc: Global,
        actor: &Actor,
        op: &Op,
        moment: u64,
    ) -> Result<Reply, OutOfMemory>
        requires { length self.old.history < 2 ^ 62 }
        ensures reply { IfOk result (λ reply. reply ≡ reply_after self.old.settings self.old.history op.now moment) }
        ensures made { IfOk result (λ reply. self.new.history ≡ self.old.history ++ event_of actor.now op.now moment reply ∷ []) }
        ensures settings { self.new.settings ≡ self.old.settings }
        ensures stopped { OnErr result (self.new ≡ self.old) }
        // For what holds of histories.
        ensures good { IsSettings self.old.settings }
    {
        sizes_fit(op);
        let settings = self.settings;
        let number = self.scroll.len() + 1;
        let clock = clock_at(self.clock, moment);
        let reply = perform_in(alloc, &mut self.zones, &settings, number, clock, op)?;
        note::<Brand>(&mut self.scroll, actor, op, moment, &reply);
        self.clock = clock;
        Ok(reply)
    }
}
