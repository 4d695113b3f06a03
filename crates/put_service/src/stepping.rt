// The task of a PUT, step by step: the clock is asked once for each event, and once where the end of the body decides.
ghost use Rattle.std.specs.Prelude.{◌≡◌, ◌<◌, ◌≤◌, ◌^◌, Ok, None, true, IfOk, OnOk, IfErr, OnErr};
ghost use Rattle.task_put.specs.Runs.{request_of, fault_of};
ghost use Rattle.door_moments.specs.Acts.{Asks};
ghost use Rattle.call_service.specs.Serving.{Stays, outside};
ghost use Rattle.put_service.specs.Standing.{IsGoing, IsUp, PausesAt, StandsAfter, is_untold, is_untold_at};
ghost use Rattle.call_service.specs.Replying.{StopsEvent};
ghost use Rattle.put_service.specs.Parts.{HasDone};

use call_service::ServeFault;
use door_moments::act;
use gw_io::Clock;
use realm_door::{Door, Next, Staged, Stepping};
use std::alloc::Global;
use task_put::PutTask;

/// Why the task of a PUT makes no event now.
#[derive(Clone, Copy, Debug, PartialEq, Eq)]
pub(crate) enum Pause {
    /// More bytes are wanted.
    Wants,
    /// The outcome was there.
    Over,
    /// The end of the body decided.
    ByEnd,
}

/// Makes the event that comes next, or says why none comes.
#[tactic(auto, using(crate::proofs::Pausing::steady_wanting, crate::proofs::Pausing::steady_ready))]
fn take_step<D: Door, C: Clock>(
    alloc: Global,
    task: &mut Stepping<PutTask>,
    door: &mut D,
    clock: &mut C,
) -> Result<Option<Pause>, ServeFault>
    requires going { IsGoing D.tells (D.settings door.old) task.old (D.told door.old) }
    ensures up { IsUp D.tells (D.settings door.old) task.new (D.told door.new) }
    ensures asks { IfOk result (λ step. Asks D.tells D.alone (D.settings door.old) (is_untold_at step) (D.told door.old) (D.told door.new) (C.told clock.old) (C.told clock.new)) }
    ensures stopped { OnErr result (Asks D.tells D.alone (D.settings door.old) true (D.told door.old) (D.told door.new) (C.told clock.old) (C.told clock.new)) }
    ensures counts { result ≡ Ok None → (D.last door.old < D.last door.new) × (D.last door.new ≤ 2 ^ 62) }
    ensures stands { IfOk result (λ step. StandsAfter step task.new) }
    ensures request { request_of task.new ≡ request_of task.old }
    ensures sound { OnOk result (fault_of task.new ≡ None) }
    ensures fault { IfErr result (StopsEvent D.tells (D.found door.new)) }
    ensures left { OnErr result (HasDone D.tells (D.settings door.old) (request_of task.old) (D.told door.new)) }
    ensures stays { Stays (outside (D.settings door.old) (D.home door.old) (C.plan clock.old)) (outside (D.settings door.new) (D.home door.new) (C.plan clock.new)) }
{
    if task.stages.end().is_some() {
        return Ok(Some(Pause::Over));
    }
    match task.stages.settle() {
        Next::Wants => Ok(Some(Pause::Wants)),
        Next::Done => {
            let _moment = clock.now();
            Ok(Some(Pause::ByEnd))
        }
        Next::Event => {
            act(alloc, task, door, clock)?;
            Ok(None)
        }
    }
}

/// Makes the events of the task, up to where it pauses.
pub(crate) fn advance<D: Door, C: Clock>(
    alloc: Global,
    task: &mut Stepping<PutTask>,
    door: &mut D,
    clock: &mut C,
) -> Result<Pause, ServeFault>
    requires going { IsGoing D.tells (D.settings door.old) task.old (D.told door.old) }
    ensures up { IsUp D.tells (D.settings door.old) task.new (D.told door.new) }
    ensures asks { IfOk result (λ pause. Asks D.tells D.alone (D.settings door.old) (is_untold pause) (D.told door.old) (D.told door.new) (C.told clock.old) (C.told clock.new)) }
    ensures stopped { OnErr result (Asks D.tells D.alone (D.settings door.old) true (D.told door.old) (D.told door.new) (C.told clock.old) (C.told clock.new)) }
    ensures pauses { IfOk result (λ pause. PausesAt pause task.new) }
    ensures request { request_of task.new ≡ request_of task.old }
    ensures sound { OnOk result (fault_of task.new ≡ None) }
    ensures fault { IfErr result (StopsEvent D.tells (D.found door.new)) }
    ensures left { OnErr result (HasDone D.tells (D.settings door.old) (request_of task.old) (D.told door.new)) }
    ensures stays { Stays (outside (D.settings door.old) (D.home door.old) (C.plan clock.old)) (outside (D.settings door.new) (D.home door.new) (C.plan clock.new)) }
{
    'events: loop {
        if let Some(pause) = take_step(alloc, task, door, clock)? {
            return Ok(pause);
        }
    }
}
