// The body of a PUT, from the intake into its task.
ghost use Rattle.std.specs.Prelude.{◌≡◌, ◌+◌, ◌<◌, ◌≤◌, None, Bool, [], length, false, IfOk, OnOk, IfErr, OnErr};
ghost use Rattle.task_put.specs.Bodies.{most_bytes};
ghost use Rattle.task_put.specs.Taking.{WantsBytes, fed_request};
ghost use Rattle.task_put.specs.Runs.{request_of, stage_of, fault_of};
ghost use Rattle.call_service.specs.Bodies.{most_due};
ghost use Rattle.door_moments.specs.Acts.{Asks};
ghost use Rattle.call_service.specs.Serving.{Stays, outside};
ghost use Rattle.put_service.specs.Standing.{IsGoing, IsUp, StaysReading, reading};
ghost use Rattle.call_service.specs.Replying.{StopsEvent};
ghost use Rattle.put_service.specs.Parts.{HasDone, TakesBytes, TakesBody, StopsBody, place};

use crate::stepping::{Pause, advance};
use call_service::{Piece, ServeFault, next_piece};
use gw_io::{Clock, Source};
use http_chunks::BodyEnd;
use http_intake::Intake;
use realm_door::{Door, Stepping};
use std::alloc::Global;
use task_put::PutTask;

/// How far the body of a PUT was read into its task.
#[derive(Clone, Copy, Debug, PartialEq, Eq)]
pub(crate) enum Taken {
    /// To where it ended so.
    Ended(BodyEnd),
    /// The outcome was there before its end.
    Over,
}

/// Feeds these bytes to the task, which makes a tail of each stripe that is full. False where the outcome is there
/// before all were taken.
fn feed_all<D: Door, C: Clock>(
    alloc: Global,
    task: &mut Stepping<PutTask>,
    door: &mut D,
    clock: &mut C,
    bytes: &[u8],
) -> Result<bool, ServeFault>
    requires going { IsGoing D.tells (D.settings door.old) task.old (D.told door.old) }
    requires wants { WantsBytes (stage_of task.old) }
    requires open { (request_of task.old).end ≡ None }
    requires few { length ((request_of task.old).bytes) + length bytes.now ≤ most_bytes }
    ensures up { IsUp D.tells (D.settings door.old) task.new (D.told door.new) }
    ensures taken { IfOk result (TakesBytes task.old task.new bytes.now) }
    ensures asks { OnOk result (Asks D.tells D.alone (D.settings door.old) false (D.told door.old) (D.told door.new) (C.told clock.old) (C.told clock.new)) }
    ensures stopped { OnErr result ((more : Bool) × Asks D.tells D.alone (D.settings door.old) more (D.told door.old) (D.told door.new) (C.told clock.old) (C.told clock.new)) }
    ensures sound { OnOk result (fault_of task.new ≡ None) }
    ensures fault { IfErr result (StopsEvent D.tells (D.found door.new)) }
    ensures left { OnErr result (HasDone D.tells (D.settings door.old) (fed_request (request_of task.old) bytes.now) (D.told door.new)) }
    ensures stays { Stays (outside (D.settings door.old) (D.home door.old) (C.plan clock.old)) (outside (D.settings door.new) (D.home door.new) (C.plan clock.new)) }
{
    let mut rest = bytes;
    'parts: while !rest.is_empty() {
        let Ok(count) = task.stages.feed(rest) else {
            return Err(ServeFault::OutOfMemory);
        };
        match advance(alloc, task, door, clock)? {
            Pause::Wants => rest = &rest[count..],
            Pause::Over => return Ok(false),
            Pause::ByEnd => unreachable!(),
        }
    }
    Ok(true)
}

/// Reads the row, and behind it the present body into the task: to where it ends, or to where the outcome is there.
pub(crate) fn take_body<D: Door, C: Clock, S: Source>(
    alloc: Global,
    task: &mut Stepping<PutTask>,
    door: &mut D,
    clock: &mut C,
    intake: &mut Intake,
    source: &mut S,
    buffer: &mut [u8],
) -> Result<Taken, ServeFault>
    requires room { 0 < length buffer.old }
    requires going { IsGoing D.tells (D.settings door.old) task.old (D.told door.old) }
    requires none { (request_of task.old).bytes ≡ [] }
    requires open { (request_of task.old).end ≡ None }
    requires intake { intake.old.failed ≡ None }
    requires few { length ((request_of task.old).bytes) + most_due intake.old ≤ most_bytes }
    ensures up { IsUp D.tells (D.settings door.old) task.new (D.told door.new) }
    ensures taken { IfOk result (TakesBody task.old task.new
        (place (D.told door.old) intake.old (S.left source.old) (C.told clock.old))
        (place (D.told door.new) intake.new (S.left source.new) (C.told clock.new))) }
    ensures asks { OnOk result (Asks D.tells D.alone (D.settings door.old) false (D.told door.old) (D.told door.new) (C.told clock.old) (C.told clock.new)) }
    ensures sound { OnOk result (fault_of task.new ≡ None) }
    ensures fault { IfErr result (StopsBody D.tells D.alone (D.settings door.old) (request_of task.old) (D.found door.new)
        (place (D.told door.old) intake.old (S.left source.old) (C.told clock.old))
        (place (D.told door.new) intake.new (S.left source.new) (C.told clock.new))) }
    ensures stays { StaysReading (reading (D.settings door.old) (D.home door.old) (C.plan clock.old) (S.faults source.old) (length buffer.old))
        (reading (D.settings door.new) (D.home door.new) (C.plan clock.new) (S.faults source.new) (length buffer.new)) result }
{
    let pause = advance(alloc, task, door, clock)?;
    match pause {
        Pause::Wants => {}
        Pause::Over => return Ok(Taken::Over),
        Pause::ByEnd => unreachable!(),
    }
    'pieces: loop {
        match next_piece(intake, source, buffer) {
            Piece::Bytes(count) => {
                if !feed_all(alloc, task, door, clock, &buffer[..count])? {
                    return Ok(Taken::Over);
                }
            }
            Piece::Ended(end) => return Ok(Taken::Ended(end)),
            Piece::Failed => return Err(ServeFault::ReadFault),
        }
    }
}
