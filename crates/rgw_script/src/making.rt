//! The container that is there before the lines.
ghost use Rattle.std.specs.Prelude.{◌≡◌, OnOk, IfErr};
ghost use Rattle.realm_core.specs.Realms.{new_realm};
ghost use Rattle.rgw_script.specs.Runs.{made, Unmade};
ghost use Rattle.rgw_script.specs.Stages.{IsOpen, AreBelow};

use crate::fault::ScriptFault;
use container_preset::preset_bucket;
use object_words::BucketName;
use realm_core::{Realm, SoloDoor};
use realm_model::{Actor, Settings};
use std::alloc::Global;
use swift_auth::User;

/// Makes the container, of this user's account, in a new realm, as the first actor of the first pass, all at this moment.
pub(crate) fn make_container(
    alloc: Global,
    settings: &Settings,
    realm: &mut Realm,
    bucket: &BucketName,
    user: &User,
    moment: u64,
) -> Result<(), ScriptFault>
    requires { realm.old ≡ new_realm settings.now }
    ensures made { OnOk result (realm.new.history ≡ made settings.now user.now (Some bucket.now) moment) }
    ensures stopped { IfErr result (Unmade settings.now bucket.now moment realm.new.history) }
    ensures below { AreBelow 2 realm.new.history }
    ensures open { IsOpen settings.now realm.new }
{
    let mut actor = Actor::new(1);
    let mut door = SoloDoor::new(realm, &mut actor);
    preset_bucket(alloc, settings, &mut door, bucket, user.account(), moment)?;
    Ok(())
}
