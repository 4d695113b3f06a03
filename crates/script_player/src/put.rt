//! A PUT, to which its body is fed as it wants it.
ghost use Rattle.std.specs.Prelude.{◌≡◌, ◌≤◌, ◌<◌, true, false, length, IfOk, OnOk, OnErr};
ghost use Rattle.realm_model.specs.Settings.{SettingsView};
ghost use Rattle.realm_model.specs.Doors.{DoorView};
ghost use Rattle.call_service.specs.Serving.{IsNew};
ghost use Rattle.task_put.specs.Bodies.{most_bytes};
ghost use Rattle.task_put.specs.Stages.{IsOver, IsReady};
ghost use Rattle.task_put.specs.Runs.{stage_of, fits};
ghost use Rattle.task_put.specs.Tasks.{fits as stages_fit};
ghost use Rattle.task_put.specs.Taking.{WantsBytes};
ghost use Rattle.script_words.specs.Bodies.{body_bytes};
ghost use Rattle.script_words.specs.declared.line.Verb.TheVariants.{Put};
ghost use Rattle.script_player.specs.Requests.{asker_of};
ghost use Rattle.script_player.specs.Plays.{asked_put, TakesNext, PutStands, PutEnded, FitsPut, left_of};

use crate::asker::asker_of;
use crate::play::{EndingPlay, Play};
use object_words::{BucketName, Conditions, ObjectName};
use realm_door::{Door, EventTask, Next, Staged, Stepping, Task};
use realm_model::Settings;
use rgw_types::Pairs;
use script_words::ScriptBody;
use std::alloc::{AllocError, Global};
use swift_auth::User;
use task_put::PutTask;
use task_words::{BodyEnd, Outcome, PutCommand};
use turn_cell::DoorFault;

/// A body of letters is fed in pieces of so many bytes at most.
const PIECE: usize = 65536;

/// A PUT, and how far its body was fed to it.
#[derive(Drop)]
pub(crate) struct PutPlay {
    task: Stepping<PutTask>,
    body: ScriptBody,
    /// So many bytes of the body were taken.
    fed: u64,
}

/// How many bytes a body has.
fn size_of(body: &ScriptBody) -> u64
    ensures { result ≡ length (body_bytes body.now) }
{
    match body {
        ScriptBody::Word(bytes) => bytes.len() as u64,
        ScriptBody::Times(times) => *times,
    }
}

/// Feeds the next piece of a body to the task, from the byte at `at` on. So many bytes were taken.
fn feed_piece(task: &mut PutTask, body: &ScriptBody, at: u64) -> Result<usize, AllocError>
    requires more { at < length (body_bytes body.now) }
    ensures taken { IfOk result (TakesNext (body_bytes body.now) at task.old task.new) }
    ensures fits { OnOk result ((settings : SettingsView) (d : DoorView)
        → stages_fit task.old settings d → stages_fit task.new settings d) }
    ensures err { OnErr result (task.new ≡ task.old) }
{
    match body {
        ScriptBody::Word(bytes) => task.feed(&bytes.as_slice()[at as usize..]),
        ScriptBody::Times(times) => {
            let count = (*times - at).min(PIECE as u64) as usize;
            task.feed(&[b'x'; PIECE][..count])
        }
    }
}

impl PutPlay {
    /// A PUT that made no event, without conditions.
    pub(crate) fn new(
        alloc: Global,
        settings: &Settings,
        user: &User,
        zone: u8,
        container: BucketName,
        name: ObjectName,
        body: ScriptBody,
    ) -> Result<PutPlay, AllocError>
        requires few { length (body_bytes body) ≤ most_bytes }
        ensures asked { IfOk result (λ x. asked_put x ≡ record { zone = zone; asker = asker_of user.now; verb = Put container name body }) }
        ensures stands { IfOk result PutStands }
        ensures going { IfOk result (λ x. PutEnded x → ⊥) }
        ensures fits { IfOk result (λ x. (d : DoorView) → 1 ≤ zone → zone ≤ settings.now.zones
            → IsNew settings.now d → FitsPut x settings.now d) }
    {
        let put = PutCommand {
            container,
            name,
            kind: None,
            meta: Pairs::new(alloc),
            etag: None,
            when: Conditions {
                matches: None,
                none: None,
                modified: None,
                unmodified: None,
            },
        };
        let asker = asker_of(user)?;
        Ok(PutPlay {
            task: Stepping::new(PutTask::new(alloc, settings, zone, asker, put)?),
            body,
            fed: 0,
        })
    }

    /// Feeds the next piece of the body, or ends it behind the last one.
    #[tactic(auto, using(crate::proofs::Putting::fed_stands, crate::proofs::Putting::fed_less, crate::proofs::Putting::fed_asked, crate::proofs::Putting::ended_stands, crate::proofs::Putting::ended_less, crate::proofs::Putting::ended_asked))]
    fn feed(&mut self) -> Result<(), AllocError>
        requires stands { PutStands self.old }
        requires wants { WantsBytes (stage_of self.old.task) }
        ensures stands { OnOk result (PutStands self.new) }
        ensures fits { OnOk result ((settings : SettingsView) (d : DoorView)
            → fits self.old.task settings d → fits self.new.task settings d) }
        ensures less { OnOk result (left_of self.new < left_of self.old) }
        ensures asked { asked_put self.new ≡ asked_put self.old }
    {
        if self.fed >= size_of(&self.body) {
            self.task.stages.finish(BodyEnd::Whole);
            return Ok(());
        }
        let taken = feed_piece(&mut self.task.stages, &self.body, self.fed)?;
        self.fed += taken as u64;
        Ok(())
    }

    /// Feeds the body until an event comes next: true. False where the outcome is there.
    fn make_ready(&mut self) -> Result<bool, AllocError>
        requires stands { PutStands self.old }
        ensures stands { OnOk result (PutStands self.new) }
        ensures fits { OnOk result ((settings : SettingsView) (d : DoorView)
            → fits self.old.task settings d → fits self.new.task settings d) }
        ensures ready { IfOk result (λ ready. ready ≡ true → IsReady (stage_of self.new.task)) }
        ensures over { IfOk result (λ ready. ready ≡ false → IsOver (stage_of self.new.task)) }
        ensures asked { asked_put self.new ≡ asked_put self.old }
    {
        'pieces: loop {
            match self.task.stages.settle() {
                Next::Event => return Ok(true),
                Next::Done => return Ok(false),
                Next::Wants => self.feed()?,
            }
        }
    }
}

impl Play for PutPlay {
    ghost use Rattle.script_player.specs.Plays.{asked_put, PutStands, PutEnded, FitsPut};

    ghost asked = { asked_put };

    ghost stands = { PutStands };

    ghost is_ended = { PutEnded };

    ghost fits = { FitsPut };

    ghost brings = { FitsPut };

    fn act<D: Door>(&mut self, alloc: Global, door: &mut D, moment: u64) -> Result<(), DoorFault> {
        let Ok(ready) = self.make_ready() else {
            return Err(DoorFault::OutOfMemory);
        };
        if ready {
            self.task.event(alloc, door, moment)?;
        }
        Ok(())
    }
}

impl EndingPlay for PutPlay {
    ghost use Rattle.std.specs.Prelude.{[]};
    ghost use Rattle.script_player.specs.Meanings.{MeansRequest};

    type Outcome = Outcome;

    ghost shown = { λ x. [] };

    ghost means = { MeansRequest };

    fn end(&self) -> Option<&Outcome> {
        self.task.outcome()
    }
}
