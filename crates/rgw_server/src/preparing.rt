//! What is made before anything is served.
ghost use Rattle.std.specs.Prelude.{◌≡◌};
ghost use Rattle.rgw_server.specs.Posts.{IsFresh};

use container_preset::preset_bucket;
use gw_io::Clock;
use object_words::BucketName;
use realm_core::Realm;
use realm_model::Settings;
use std::alloc::{AllocError, Global};
use std::sync::Wait;
use swift_auth::Users;
use turn_cell::{DoorFault, Pass, Turn};
use turn_door::TurnDoor;

/// Makes the container that is named, if one is, at the moment now, in the account of the first user. It fails
/// only for want of memory: in a realm that has all its events nothing is made.
pub(crate) fn prepare<R: Wait, C: Clock>(
    rt: &R,
    alloc: Global,
    settings: &Settings,
    users: &Users,
    bucket: &Option<BucketName>,
    cell: &Turn<Realm>,
    pass: Pass<Realm>,
    clock: &mut C,
) -> Result<(), AllocError>
    requires fresh { IsFresh cell.now pass }
    requires settings { cell.now.fixed ≡ settings.now }
{
    let Some(name) = bucket else {
        return Ok(());
    };
    let owner = users.first().account();
    let mut door = TurnDoor::new(rt, cell, pass);
    let moment = clock.now();
    match preset_bucket(alloc, settings, &mut door, name, owner, moment) {
        Ok(()) | Err(DoorFault::Worn) => Ok(()),
        Err(DoorFault::OutOfMemory) => Err(AllocError),
    }
}
