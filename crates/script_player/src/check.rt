//! The check of a container.
ghost use Rattle.task_words.specs.declared.job.Job.TheVariants.{Check};
ghost use Rattle.script_words.specs.declared.line.Verb.TheVariants as verbs;
ghost use Rattle.script_player.specs.Requests.{nobody};
ghost use Rattle.script_player.specs.Plays.{IsBegun, asked_check, CheckStands, CheckEnded, FitsCheck};

use crate::unfed::Unfed;
use object_words::BucketName;
use realm_door::Stepping;
use task_repair::RepairTask;

/// A check of the container that made no event.
pub(crate) fn new_check(zone: u8, container: BucketName) -> Stepping<RepairTask>
    ensures { IsBegun (asked_check result) (record { zone = zone; asker = nobody; verb = verbs.Job (Check container) }) (CheckStands result) (CheckEnded result) (FitsCheck result) }
{
    Stepping::new(RepairTask::new(zone, container))
}

impl Unfed for RepairTask {
    ghost use Rattle.script_player.specs.Meanings.{MeansJob};
    ghost use Rattle.script_player.specs.Plays.{check_of, IsCheck};

    ghost asked = { check_of };

    ghost is_plain = { IsCheck };

    ghost says = { MeansJob };

    fn goes_on() {}

    fn tells() {}
}
