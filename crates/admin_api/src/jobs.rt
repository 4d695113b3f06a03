ghost use Rattle.std.specs.Prelude.{◌≡◌, ◌≤◌, false, IfOk, OnOk, IfErr};
ghost use Rattle.admin_api.specs.Jobs.{IsNew, JobMeans, StopsJob};
ghost use Rattle.door_moments.specs.Acts.{Asks};

use door_moments::act_to_end;
use gw_io::Clock;
use realm_door::{Door, Stepping, Task};
use std::alloc::Global;
use task_repair::RepairTask;
use task_words::{Job, JobOutcome};
use turn_cell::DoorFault;

/// Runs a job in a zone, as the door's present actor, which made no event. The clock is asked once for each event, and
/// at no other time; where the last event failed to come, it was asked for that too.
pub fn run_job<D: Door, C: Clock>(
    alloc: Global,
    door: &mut D,
    clock: &mut C,
    zone: u8,
    job: &Job,
) -> Result<JobOutcome, DoorFault>
    requires low { 1 ≤ zone }
    requires high { zone ≤ (D.settings door.old).zones }
    requires new { D.tells → IsNew (D.settings door.old) (D.told door.old) }

    // The outcome means of the actor's own events what it means of the events of the job's task.
    ensures means { IfOk result (λ outcome. D.tells
        → JobMeans zone job.now outcome (D.settings door.old) (D.told door.new)) }
    ensures asks { OnOk result (Asks D.tells D.alone (D.settings door.old) false
        (D.told door.old) (D.told door.new) (C.told clock.old) (C.told clock.new)) }
    ensures stopped { IfErr result (StopsJob D.tells D.alone (D.settings door.old) zone job.now (D.found door.new)
        (D.told door.old) (D.told door.new) (C.told clock.old) (C.told clock.new)) }

    ensures settings { D.settings door.new ≡ D.settings door.old }
    ensures home { D.home door.new ≡ D.home door.old }
    ensures plan { C.plan clock.new ≡ C.plan clock.old }
{
    let Job::Check { container } = job;
    let Ok(bucket) = container.clone() else {
        return Err(DoorFault::OutOfMemory);
    };
    let mut task = Stepping::new(RepairTask::new(zone, bucket));
    let acted = act_to_end(alloc, &mut task, door, clock);
    let outcome = task.outcome().copied();
    drop(task);
    acted?;
    match outcome {
        Some(outcome) => Ok(outcome),
        None => unreachable!(),
    }
}
