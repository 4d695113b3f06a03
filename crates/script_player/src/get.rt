//! A GET, whose bytes are kept as they come.
ghost use Rattle.std.specs.Prelude.{◌≡◌, IfOk, OnOk};
ghost use Rattle.realm_model.specs.Settings.{SettingsView};
ghost use Rattle.realm_model.specs.Doors.{DoorView};
ghost use Rattle.script_words.specs.declared.line.Verb.TheVariants.{Get};
ghost use Rattle.script_player.specs.Requests.{asker_of};
ghost use Rattle.script_player.specs.Plays.{IsBegun, asked_get, GetStands, GetEnded, FitsGet, BringsGet};

use crate::asker::asker_of;
use crate::play::{EndingPlay, Play};
use object_words::{BucketName, Conditions, ObjectName};
use realm_door::{Door, EventTask, Staged, Stepping, Task};
use std::alloc::{AllocError, Global};
use std::marker::Model;
use swift_auth::User;
use task_get::{GetRequest, GetTask};
use task_words::{GetCommand, Outcome};
use turn_cell::DoorFault;

/// A GET, and the bytes that its events brought. Contracts see these as a list.
#[derive(Drop)]
pub(crate) struct GetPlay {
    task: Stepping<GetTask>,
    shown: Vec<u8>,
}

impl Model for GetPlay {
    ghost use Rattle.script_player.specs.Views.{GetPlayView};

    ghost Value = { GetPlayView };

    ghost view = { λ x. record { task = x.task; shown = x.shown.items } };
}

impl GetPlay {
    /// A GET that made no event, of all bytes and without conditions.
    pub(crate) fn new(
        alloc: Global,
        user: &User,
        zone: u8,
        container: BucketName,
        name: ObjectName,
    ) -> Result<GetPlay, AllocError>
        ensures { IfOk result (λ x. IsBegun (asked_get x) (record { zone = zone; asker = asker_of user.now; verb = Get container name }) (GetStands x) (GetEnded x) (FitsGet x)) }
    {
        let get = GetCommand {
            container,
            name,
            when: Conditions {
                matches: None,
                none: None,
                modified: None,
                unmodified: None,
            },
            span: None,
            body: true,
        };
        let request = GetRequest {
            zone,
            asker: asker_of(user)?,
            get,
        };
        Ok(GetPlay {
            task: Stepping::new(GetTask::new(request)),
            shown: Vec::new(alloc),
        })
    }

    /// Keeps the bytes that the last event brought.
    pub(crate) fn keep(&mut self) -> Result<(), AllocError>
        ensures fits { OnOk result ((settings : SettingsView) (d : DoorView)
            → BringsGet self.old settings d → FitsGet self.new settings d) }
        ensures task { self.new.task ≡ self.old.task }
    {
        self.shown.extend_from_slice(self.task.stages.piece())
    }

    /// The bytes so far.
    pub(crate) fn shown(&self) -> &[u8]
        ensures { result.now ≡ self.now.shown }
    {
        self.shown.as_slice()
    }
}

impl Play for GetPlay {
    ghost use Rattle.script_player.specs.Plays.{asked_get, GetStands, GetEnded, FitsGet, BringsGet};

    ghost asked = { asked_get };

    ghost stands = { GetStands };

    ghost is_ended = { GetEnded };

    ghost fits = { FitsGet };

    ghost brings = { BringsGet };

    fn act<D: Door>(&mut self, alloc: Global, door: &mut D, moment: u64) -> Result<(), DoorFault> {
        self.task.event(alloc, door, moment)
    }
}

impl EndingPlay for GetPlay {
    ghost use Rattle.script_player.specs.Meanings.{MeansRequest};

    type Outcome = Outcome;

    ghost shown = { λ x. x.shown };

    ghost means = { MeansRequest };

    fn end(&self) -> Option<&Outcome> {
        self.task.outcome()
    }
}
