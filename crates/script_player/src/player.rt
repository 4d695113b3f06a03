//! One actor of a script.
ghost use Rattle.std.specs.Prelude.{◌≡◌, ◌↔◌, ◌≤◌, ◌^◌, length, IsSome, IfSome, IfOk, IfErr, OnOk, OnErr};
ghost use Rattle.turn_cell.specs.declared.machine.DoorFault.TheVariants.{Worn};
ghost use Rattle.realm_model.specs.Settings.{SettingsView};
ghost use Rattle.realm_model.specs.Doors.{DoorView};
ghost use Rattle.realm_model.specs.Histories.{Legal};
ghost use Rattle.call_service.specs.Serving.{IsNew};
ghost use Rattle.script_player.specs.Going.{GoesUpTo, HasGone, Steps};
ghost use Rattle.script_player.specs.Meanings.{Means};
ghost use Rattle.script_player.specs.Plays.{asked, IsPlaying, IsEnded, StandsBy, StandsAs, shown_of, fits, BringsBy, ComesSoFar};
ghost use Rattle.script_player.specs.Requests.{HasFewBytes, asker_for};

use crate::account::new_account;
use crate::check::new_check;
use crate::container::{new_count, new_make, new_removal};
use crate::get::GetPlay;
use crate::list::new_list;
use crate::play::{EndingPlay, Play};
use crate::put::PutPlay;
use realm_door::{Door, Stepping};
use realm_model::Settings;
use script_words::{ActorOutcome, Verb};
use std::alloc::{AllocError, Global};
use swift_auth::User;
use task_account::AccountTask;
use task_container::ContainerTask;
use task_list::ListTask;
use task_repair::RepairTask;
use task_words::Job;
use turn_cell::DoorFault;

/// How far an actor went.
#[derive(Clone, Copy, Debug, PartialEq, Eq)]
pub enum Gone {
    /// It made as many events as it was to make, and the outcome is not there.
    Short,
    /// The outcome is there.
    Ended,
}

/// The request or the job of an actor, as far as it came.
#[derive(Drop)]
pub(crate) enum Acting {
    Put(PutPlay),
    Get(GetPlay),
    Container(Stepping<ContainerTask>),
    List(Stepping<ListTask>),
    Account(Stepping<AccountTask>),
    Check(Stepping<RepairTask>),
}

/// One actor of a script: a request of a user, or a job of an administrator, in one zone, which goes on
/// event by event. It keeps the bytes that a GET shows; of a body of letters it makes 64 KiB at a time.
#[derive(Drop)]
pub struct Player {
    acting: Acting,
}

impl Player {
    /// An actor that made no event. This user asks where the verb is a request; a job is nobody's.
    pub fn new(
        alloc: Global,
        settings: &Settings,
        user: &User,
        zone: u8,
        verb: Verb,
    ) -> Result<Player, AllocError>
        requires few { HasFewBytes verb }
        ensures asked { IfOk result (λ p. asked p ≡ record { zone = zone; asker = asker_for user.now verb; verb = verb }) }
        ensures playing { IfOk result IsPlaying }
        ensures fits { IfOk result (λ p. (d : DoorView) → 1 ≤ zone → zone ≤ settings.now.zones
            → IsNew settings.now d → fits p settings.now d) }
    {
        let acting = match verb {
            Verb::Put {
                container,
                name,
                body,
            } => Acting::Put(PutPlay::new(alloc, settings, user, zone, container, name, body)?),
            Verb::Get { container, name } => {
                Acting::Get(GetPlay::new(alloc, user, zone, container, name)?)
            }
            Verb::Stat { container } => {
                Acting::Container(new_count(settings, user, zone, container)?)
            }
            Verb::Make { container } => {
                Acting::Container(new_make(alloc, settings, user, zone, container)?)
            }
            Verb::Remove { container } => {
                Acting::Container(new_removal(settings, user, zone, container)?)
            }
            Verb::List { container } => Acting::List(new_list(alloc, user, zone, container)?),
            Verb::Account => Acting::Account(new_account(alloc, user, zone)?),
            Verb::Job(Job::Check { container }) => Acting::Check(new_check(zone, container)),
        };
        Ok(Player { acting })
    }

    /// Keeps what the last event brought.
    fn keep(&mut self) -> Result<(), AllocError>
        ensures stands { StandsBy self.old.acting → StandsBy self.new.acting }
        ensures ended { IsEnded self.new ↔ IsEnded self.old }
        ensures fits { OnOk result ((settings : SettingsView) (d : DoorView)
            → BringsBy self.old.acting settings d → fits self.new settings d) }
        ensures asked { asked self.new ≡ asked self.old }
    {
        match &mut self.acting {
            Acting::Get(play) => play.keep(),
            _ => Ok(()),
        }
    }

    /// Makes the event that comes next and keeps what it brings; none where the outcome is there without one.
    ///
    /// At `OutOfMemory` the event may have been made.
    fn go_once<D: Door>(
        &mut self,
        alloc: Global,
        door: &mut D,
        moment: u64,
    ) -> Result<(), DoorFault>
        requires playing { IsPlaying self.old }
        requires legal { D.tells → Legal (D.settings door.old) (D.told door.old).seen }
        requires fits { D.tells → fits self.old (D.settings door.old) (D.told door.old) }
        ensures stands { OnOk result (StandsBy self.new.acting) }
        ensures fits { OnOk result (D.tells → fits self.new (D.settings door.old) (D.told door.new)) }
        ensures steps { OnOk result (D.tells → Steps D.alone (D.settings door.old) moment (IsEnded self.new) (D.told door.old) (D.told door.new)) }
        ensures stopped { OnErr result (D.tells → GoesUpTo D.alone (D.settings door.old) moment 1 (D.told door.old) (D.told door.new)) }
        ensures left { OnErr result (D.tells → ComesSoFar (asked self.old) (D.settings door.old) (D.told door.new)) }
        ensures worn { IfErr result (λ f. D.tells → f ≡ Worn → length (D.found door.new) ≡ 2 ^ 62) }
        ensures asked { asked self.new ≡ asked self.old }
        ensures settings { D.settings door.new ≡ D.settings door.old }
        ensures home { D.home door.new ≡ D.home door.old }
    {
        self.act(alloc, door, moment)?;
        match self.keep() {
            Ok(()) => Ok(()),
            Err(_) => Err(DoorFault::OutOfMemory),
        }
    }

    /// Makes events as the door's present actor, each at this moment, until there are `most` of them or the
    /// outcome is there. After an error the actor is not to go on.
    ///
    /// At `OutOfMemory` the last of the events may have been made.
    pub fn go<D: Door>(
        &mut self,
        alloc: Global,
        door: &mut D,
        moment: u64,
        most: u64,
    ) -> Result<Gone, DoorFault>
        requires playing { IsPlaying self.old }
        requires legal { D.tells → Legal (D.settings door.old) (D.told door.old).seen }
        requires fits { D.tells → fits self.old (D.settings door.old) (D.told door.old) }
        ensures stands { IfOk result (λ gone. StandsAs gone self.new) }
        ensures fits { OnOk result (D.tells → fits self.new (D.settings door.old) (D.told door.new)) }
        ensures gone { IfOk result (λ gone. D.tells → HasGone gone D.alone (D.settings door.old) moment most (D.told door.old) (D.told door.new)) }
        ensures stopped { OnErr result (D.tells → GoesUpTo D.alone (D.settings door.old) moment most (D.told door.old) (D.told door.new)) }
        ensures left { OnErr result (D.tells → ComesSoFar (asked self.old) (D.settings door.old) (D.told door.new)) }
        ensures worn { IfErr result (λ f. D.tells → f ≡ Worn → length (D.found door.new) ≡ 2 ^ 62) }
        ensures asked { asked self.new ≡ asked self.old }
        ensures settings { D.settings door.new ≡ D.settings door.old }
        ensures home { D.home door.new ≡ D.home door.old }
    {
        let mut made = 0_u64;
        'events: while made < most {
            self.go_once(alloc, door, moment)?;
            if self.outcome().is_some() {
                return Ok(Gone::Ended);
            }
            made += 1;
        }
        Ok(Gone::Short)
    }

    /// The outcome, from its event on.
    pub fn outcome(&self) -> Option<ActorOutcome<'_>>
        ensures there { IsSome result ↔ IsEnded self.now }
        ensures right { IfSome result (λ outcome. (settings : SettingsView) (d : DoorView) → fits self.now settings d
            → Means (asked self.now).zone (asked self.now).asker (asked self.now).verb outcome (shown_of self.now) settings d) }
    {
        match &self.acting {
            Acting::Put(play) => Some(ActorOutcome::Request(play.end()?)),
            Acting::Get(play) => Some(ActorOutcome::Request(play.end()?)),
            Acting::Container(task) => Some(ActorOutcome::Container(task.end()?)),
            Acting::List(task) => Some(ActorOutcome::Request(task.end()?)),
            Acting::Account(task) => Some(ActorOutcome::Account(task.end()?)),
            Acting::Check(task) => Some(ActorOutcome::Job(task.end()?)),
        }
    }

    /// The bytes of the object that the events so far brought; none but of a GET.
    pub fn shown(&self) -> &[u8]
        ensures { result.now ≡ shown_of self.now }
    {
        match &self.acting {
            Acting::Get(play) => play.shown(),
            _ => &[],
        }
    }
}

impl Play for Player {
    ghost use Rattle.script_player.specs.Plays.{asked, StandsBy, IsEnded, fits, BringsBy};

    ghost asked = { asked };

    ghost stands = { λ p. StandsBy p.acting };

    ghost is_ended = { IsEnded };

    ghost fits = { fits };

    ghost brings = { λ p. BringsBy p.acting };

    fn act<D: Door>(&mut self, alloc: Global, door: &mut D, moment: u64) -> Result<(), DoorFault> {
        match &mut self.acting {
            Acting::Put(play) => play.act(alloc, door, moment),
            Acting::Get(play) => play.act(alloc, door, moment),
            Acting::Container(task) => task.act(alloc, door, moment),
            Acting::List(task) => task.act(alloc, door, moment),
            Acting::Account(task) => task.act(alloc, door, moment),
            Acting::Check(task) => task.act(alloc, door, moment),
        }
    }
}
