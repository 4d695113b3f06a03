//! The lines of a script, one by one.
ghost use Rattle.std.specs.Prelude.{◌≡◌, ◌+◌, ◌-◌, ◌^◌, ◌<◌, ◌≤◌, ℕ, List, [], true, false, Ok, OnOk, IfErr, OnErr};
ghost use Rattle.realm_core.specs.Realms.{RealmView};
ghost use Rattle.realm_model.specs.Settings.{SettingsView};
ghost use Rattle.realm_model.specs.declared.event.Event.{Event as EventOf};
ghost use Rattle.script_words.specs.declared.line.Line.TheVariants as lines;
ghost use Rattle.rgw_script.specs.declared.fault.ScriptFault.TheVariants.{OutOfMemory};
ghost use Rattle.rgw_script.specs.Plays.{Plays, Misses, Begins};
ghost use Rattle.rgw_script.specs.Stages.{scene_of, Holds, IsOpen, IsPlayable, IsSound, StopsAt, ComesTo};

use crate::active::Active;
use crate::cast::Cast;
use crate::ending::{push_ending, push_named_ending};
use crate::fault::ScriptFault;
use realm_core::Realm;
use realm_model::Settings;
use script_player::Gone;
use script_words::{ActorName, Line, Verb, push_count_line};
use std::alloc::Global;
use swift_auth::User;

/// Where a script stands between two lines, beside the realm.
#[derive(Drop)]
pub(crate) struct Script {
    /// The moment that the next events bring.
    pub(crate) moment: u64,
    /// The number of the pass of the next actor.
    pub(crate) next: u64,
    pub(crate) cast: Cast,
    /// Who asks in each request.
    pub(crate) asker: User,
}

impl Script {
    /// Starts an actor under a name. False where the name was used.
    fn start(
        &mut self,
        alloc: Global,
        settings: &Settings,
        name: ActorName,
        zone: u8,
        verb: Verb,
    ) -> Result<bool, ScriptFault>
        requires room { self.old.next < 2 ^ 64 - 1 }
        requires playable { IsPlayable settings.now zone verb }
        ensures holds { OnOk result ((realm : RealmView) → Holds settings.now self.old realm → Holds settings.now self.new realm) }
        ensures played { result ≡ Ok true → (history : List EventOf)
            → Plays settings.now (scene_of self.old history) (lines.Start name zone verb) (scene_of self.new history) [] }
        ensures missed { result ≡ Ok false → (history : List EventOf)
            → Misses (scene_of self.old history) (lines.Start name zone verb) }
        ensures next { OnOk result (self.new.next ≤ self.old.next + 1) }
        ensures cause { IfErr result (λ fault. fault ≡ OutOfMemory) }
    {
        if self.cast.has(&name) {
            return Ok(false);
        }
        let active = Active::new(alloc, settings, &self.asker, self.next, zone, verb)?;
        self.cast.put(name, active)?;
        self.next += 1;
        Ok(true)
    }

    /// Takes an actor on by so many events, or to its outcome, and says which. False where no such actor plays.
    fn step(
        &mut self,
        alloc: Global,
        settings: &Settings,
        realm: &mut Realm,
        name: ActorName,
        events: u64,
        out: &mut Vec<u8>,
    ) -> Result<bool, ScriptFault>
        requires holds { Holds settings.now self.old realm.old }
        requires empty { out.old.items ≡ [] }
        ensures holds { OnOk result (Holds settings.now self.new realm.new) }
        ensures played { result ≡ Ok true → Plays settings.now (scene_of self.old realm.old.history) (lines.Step name events)
            (scene_of self.new realm.new.history) out.new.items }
        ensures missed { result ≡ Ok false → Misses (scene_of self.old realm.old.history) (lines.Step name events) × (realm.new ≡ realm.old) }
        ensures next { OnOk result (self.new.next ≤ self.old.next + 1) }
        ensures begun { OnErr result (Begins settings.now (scene_of self.old realm.old.history) (lines.Step name events) realm.new.history) }
        ensures cause { IfErr result (StopsAt realm.new.history) }
        ensures open { IsOpen settings.now realm.new }
    {
        let Some(mut active) = self.cast.take(&name) else {
            return Ok(false);
        };
        match active.act(alloc, realm, self.moment, events)? {
            Gone::Ended => push_named_ending(out, &name, &active)?,
            Gone::Short => {
                push_count_line(out, &name, events)?;
                self.cast.put(name, active)?;
            }
        }
        Ok(true)
    }

    /// Takes an actor to its outcome, and says it. False where no such actor plays.
    fn run(
        &mut self,
        alloc: Global,
        settings: &Settings,
        realm: &mut Realm,
        name: ActorName,
        out: &mut Vec<u8>,
    ) -> Result<bool, ScriptFault>
        requires holds { Holds settings.now self.old realm.old }
        requires empty { out.old.items ≡ [] }
        ensures holds { OnOk result (Holds settings.now self.new realm.new) }
        ensures played { result ≡ Ok true → Plays settings.now (scene_of self.old realm.old.history) (lines.Run name)
            (scene_of self.new realm.new.history) out.new.items }
        ensures missed { result ≡ Ok false → Misses (scene_of self.old realm.old.history) (lines.Run name) × (realm.new ≡ realm.old) }
        ensures next { OnOk result (self.new.next ≤ self.old.next + 1) }
        ensures begun { OnErr result (Begins settings.now (scene_of self.old realm.old.history) (lines.Run name) realm.new.history) }
        ensures cause { IfErr result (StopsAt realm.new.history) }
        ensures open { IsOpen settings.now realm.new }
    {
        let Some(mut active) = self.cast.take(&name) else {
            return Ok(false);
        };
        active.finish(alloc, realm, self.moment)?;
        push_named_ending(out, &name, &active)?;
        Ok(true)
    }

    /// Lets an actor make no further event. False where no such actor plays.
    fn stop(&mut self, name: &ActorName) -> bool
        ensures holds { (settings : SettingsView) (realm : RealmView) → Holds settings self.old realm → Holds settings self.new realm }
        ensures played { result ≡ true → (settings : SettingsView) (history : List EventOf)
            → Plays settings (scene_of self.old history) (lines.Stop name.now) (scene_of self.new history) [] }
        ensures missed { result ≡ false → (history : List EventOf) → Misses (scene_of self.old history) (lines.Stop name.now) }
        ensures next { self.new.next ≡ self.old.next }
    {
        match self.cast.take(name) {
            Some(active) => {
                drop(active);
                true
            }
            None => false,
        }
    }

    /// Starts an actor without a name, takes it to its outcome, and says it.
    fn carry_out(
        &mut self,
        alloc: Global,
        settings: &Settings,
        realm: &mut Realm,
        zone: u8,
        verb: Verb,
        out: &mut Vec<u8>,
    ) -> Result<(), ScriptFault>
        requires room { self.old.next < 2 ^ 64 - 1 }
        requires playable { IsPlayable settings.now zone verb }
        requires holds { Holds settings.now self.old realm.old }
        requires empty { out.old.items ≡ [] }
        ensures holds { OnOk result (Holds settings.now self.new realm.new) }
        ensures played { OnOk result (Plays settings.now (scene_of self.old realm.old.history) (lines.Do zone verb)
            (scene_of self.new realm.new.history) out.new.items) }
        ensures next { OnOk result (self.new.next ≤ self.old.next + 1) }
        ensures begun { OnErr result (Begins settings.now (scene_of self.old realm.old.history) (lines.Do zone verb) realm.new.history) }
        ensures cause { IfErr result (StopsAt realm.new.history) }
        ensures open { IsOpen settings.now realm.new }
    {
        let mut active = Active::new(alloc, settings, &self.asker, self.next, zone, verb)?;
        self.next += 1;
        active.finish(alloc, realm, self.moment)?;
        push_ending(out, &active)?;
        Ok(())
    }

    /// Plays a line, and adds what it prints. False where it can't be played.
    pub(crate) fn play(
        &mut self,
        alloc: Global,
        settings: &Settings,
        realm: &mut Realm,
        line: Line,
        out: &mut Vec<u8>,
    ) -> Result<bool, ScriptFault>
        requires room { self.old.next < 2 ^ 64 - 1 }
        requires sound { IsSound settings.now line }
        requires holds { Holds settings.now self.old realm.old }
        requires empty { out.old.items ≡ [] }
        ensures { ComesTo settings.now line self.old self.new realm.old realm.new out.new.items result }
    {
        match line {
            Line::Clock(moment) => {
                self.moment = moment;
                Ok(true)
            }
            Line::Start { actor, zone, verb } => self.start(alloc, settings, actor, zone, verb),
            Line::Step { actor, events } => self.step(alloc, settings, realm, actor, events, out),
            Line::Run(actor) => self.run(alloc, settings, realm, actor, out),
            Line::Stop(actor) => Ok(self.stop(&actor)),
            Line::Do { zone, verb } => {
                self.carry_out(alloc, settings, realm, zone, verb, out)?;
                Ok(true)
            }
        }
    }
}
