//! An actor at work.
ghost use Rattle.std.specs.Prelude.{◌≡◌, ◌≢◌, IfOk, OnOk, IfErr, OnErr};
ghost use Rattle.realm_core.specs.Realms.{RealmView};
ghost use Rattle.script_player.specs.Requests.{asker_for};
ghost use Rattle.rgw_script.specs.declared.active.Active.{Active as ActiveOf};
ghost use Rattle.rgw_script.specs.Stages.{role_of, IsOpen, AreBelow, StandsIn, IsPlayable, HasActed, HasActedSome, HasBrokenOff, HasEnded, StandsAfter, StopsAt};

use crate::fault::ScriptFault;
use realm_core::{Realm, SoloDoor};
use realm_model::{Actor, Settings};
use script_player::{Gone, Player, others_keep_a_player};
use script_words::Verb;
use std::alloc::{AllocError, Global};
use swift_auth::User;

/// An actor at work: the first one of a pass of its own.
#[derive(Drop)]
pub(crate) struct Active {
    pub(crate) pass: u64,
    /// Whether it made an event.
    pub(crate) used: bool,
    pub(crate) player: Player,
}

impl Active {
    /// An actor of this pass that made no event.
    pub(crate) fn new(
        alloc: Global,
        settings: &Settings,
        asker: &User,
        pass: u64,
        zone: u8,
        verb: Verb,
    ) -> Result<Active, AllocError>
        requires { IsPlayable settings.now zone verb }
        ensures role { IfOk result (λ a. role_of a ≡ record { pass = pass; zone = zone; asker = asker_for asker.now verb; verb = verb }) }
        ensures stands { IfOk result (λ a. (realm : RealmView) → IsOpen settings.now realm
            → AreBelow pass realm.history → StandsIn settings.now realm.history a) }
    {
        Ok(Active {
            pass,
            used: false,
            player: Player::new(alloc, settings, asker, zone, verb)?,
        })
    }

    /// Has it make events, all at this moment, up to its outcome, and at most so many.
    pub(crate) fn act(
        &mut self,
        alloc: Global,
        realm: &mut Realm,
        moment: u64,
        most: u64,
    ) -> Result<Gone, ScriptFault>
        requires open { IsOpen realm.old.settings realm.old }
        requires stands { StandsIn realm.old.settings realm.old.history self.old }
        ensures acted { IfOk result (λ gone. HasActed gone self.old.pass moment most realm.old.history realm.new.history) }
        ensures stands { IfOk result (λ gone. StandsAfter gone realm.old.settings realm.new.history self.new) }
        ensures stopped { OnErr result (HasActedSome self.old.pass moment most realm.old.history realm.new.history) }
        ensures broken { OnErr result (HasBrokenOff realm.old.settings realm.new.history self.old) }
        ensures cause { IfErr result (StopsAt realm.new.history) }
        ensures open { IsOpen realm.old.settings realm.new }
        ensures others { (b : ActiveOf) → b.pass ≢ self.old.pass
            → StandsIn realm.old.settings realm.old.history b → StandsIn realm.old.settings realm.new.history b }
        ensures role { role_of self.new ≡ role_of self.old }
    {
        others_keep_a_player();
        let mut actor = Actor {
            pass: self.pass,
            count: 0,
            used: self.used,
        };
        let mut door = SoloDoor::new(realm, &mut actor);
        let gone = self.player.go(alloc, &mut door, moment, most)?;
        self.used = door.actor.used;
        Ok(gone)
    }

    /// Has it make events, all at this moment, up to its outcome.
    pub(crate) fn finish(
        &mut self,
        alloc: Global,
        realm: &mut Realm,
        moment: u64,
    ) -> Result<(), ScriptFault>
        requires open { IsOpen realm.old.settings realm.old }
        requires stands { StandsIn realm.old.settings realm.old.history self.old }
        ensures acted { HasActedSome self.old.pass moment u64.MAX realm.old.history realm.new.history }
        ensures ended { OnOk result (HasEnded realm.old.settings realm.new.history self.new) }
        ensures broken { OnErr result (HasBrokenOff realm.old.settings realm.new.history self.old) }
        ensures cause { IfErr result (StopsAt realm.new.history) }
        ensures open { IsOpen realm.old.settings realm.new }
        ensures others { (b : ActiveOf) → b.pass ≢ self.old.pass
            → StandsIn realm.old.settings realm.old.history b → StandsIn realm.old.settings realm.new.history b }
        ensures role { role_of self.new ≡ role_of self.old }
    {
        let gone = self.act(alloc, realm, moment, u64::MAX)?;
        // No realm has so many events.
        let _events = realm.events();
        match gone {
            Gone::Ended => Ok(()),
            Gone::Short => unreachable!(),
        }
    }
}
