//! Requests for a container: its counts, its making and its removal.
ghost use Rattle.std.specs.Prelude.{◌≡◌, Some, IfOk};
ghost use Rattle.script_words.specs.declared.line.Verb.TheVariants.{Stat, Make, Remove};
ghost use Rattle.script_player.specs.Requests.{asker_of, container_command};
ghost use Rattle.script_player.specs.Plays.{BeginsContainer, verb_of};

use crate::asker::asker_of;
use crate::unfed::Unfed;
use object_words::BucketName;
use realm_door::Stepping;
use realm_model::Settings;
use rgw_types::Pairs;
use std::alloc::{AllocError, Global};
use swift_auth::User;
use task_container::{ContainerChanges, ContainerCommand, ContainerRequest, ContainerTask};

/// A HEAD of the container that made no event.
pub(crate) fn new_count(
    settings: &Settings,
    user: &User,
    zone: u8,
    container: BucketName,
) -> Result<Stepping<ContainerTask>, AllocError>
    ensures { IfOk result (λ t. BeginsContainer t settings.now (record { zone = zone; asker = asker_of user.now; verb = Stat container })) }
{
    begin(
        settings,
        user,
        zone,
        ContainerCommand::Head { name: container },
    )
}

/// A PUT of the container, without metadata and lists, that made no event.
pub(crate) fn new_make(
    alloc: Global,
    settings: &Settings,
    user: &User,
    zone: u8,
    container: BucketName,
) -> Result<Stepping<ContainerTask>, AllocError>
    ensures { IfOk result (λ t. BeginsContainer t settings.now (record { zone = zone; asker = asker_of user.now; verb = Make container })) }
{
    let changes = ContainerChanges {
        meta: Pairs::new(alloc),
        readers: None,
        writers: None,
    };
    let command = ContainerCommand::Put {
        name: container,
        changes,
    };
    begin(settings, user, zone, command)
}

/// A DELETE of the container that made no event.
pub(crate) fn new_removal(
    settings: &Settings,
    user: &User,
    zone: u8,
    container: BucketName,
) -> Result<Stepping<ContainerTask>, AllocError>
    ensures { IfOk result (λ t. BeginsContainer t settings.now (record { zone = zone; asker = asker_of user.now; verb = Remove container })) }
{
    begin(
        settings,
        user,
        zone,
        ContainerCommand::Delete { name: container },
    )
}

fn begin(
    settings: &Settings,
    user: &User,
    zone: u8,
    command: ContainerCommand,
) -> Result<Stepping<ContainerTask>, AllocError>
    requires { container_command (verb_of command) ≡ Some command }
    ensures { IfOk result (λ t. BeginsContainer t settings.now (record { zone = zone; asker = asker_of user.now; verb = verb_of command })) }
{
    let Ok(asker) = asker_of(user) else {
        drop(command);
        return Err(AllocError);
    };
    let request = ContainerRequest {
        zone,
        asker,
        command,
    };
    Ok(Stepping::new(ContainerTask::new(settings, request)))
}

impl Unfed for ContainerTask {
    ghost use Rattle.script_player.specs.Meanings.{MeansContainer};
    ghost use Rattle.script_player.specs.Plays.{container_of, IsContainer};

    ghost asked = { container_of };

    ghost is_plain = { IsContainer };

    ghost says = { MeansContainer };

    fn goes_on() {}

    fn tells() {}
}
