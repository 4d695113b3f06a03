ghost use Rattle.std.specs.Prelude.{◌≡◌, ◌≤◌, ◌<◌, ◌++◌, [], None, true, false, length, IfOk, IfErr, OnOk, OnErr};
ghost use Rattle.std.specs.Io.KnownBytes.{Appends};
ghost use Rattle.swift_requests.specs.declared.asked.Asked.TheVariants.{Put};
ghost use Rattle.swift_requests.specs.declared.body.BodyUse.TheVariants.{Fed};
ghost use Rattle.task_put.specs.Stages.{IsOver};
ghost use Rattle.call_service.specs.declared.served.Served.TheVariants as services;
ghost use Rattle.call_service.specs.Waiting.{IsServedWaiting, IsStoppedWaiting, IsPutServed, IsPutStopped};
ghost use Rattle.put_service.specs.Leaving.{left_text, HasLooked};
ghost use Rattle.task_put.specs.Bodies.{most_bytes};
ghost use Rattle.task_put.specs.Taking.{ended_request};
ghost use Rattle.task_put.specs.Runs.{request_of, stage_of, fault_of};
ghost use Rattle.call_service.specs.Bodies.{most_due};
ghost use Rattle.call_service.specs.Serving.{IsNew, MayServe, WritesAtFault, IsServed, IsStopped, StaysAround, form_at, LeavesText, Stays, outside};
ghost use Rattle.door_moments.specs.Acts.{Asks};
ghost use Rattle.put_service.specs.Standing.{IsReady, IsGoing, IsLooking, IsUp, IsSteady, IsEndAt, StaysReading, reading};
ghost use Rattle.call_service.specs.Replying.{StopsEvent};
ghost use Rattle.put_service.specs.Parts.{HasDone, StopsBody, EndsSo, RunsTask, fate_of, task_end, text_of, served_so, site_at, place};

use crate::feeding::{Taken, take_body};
use crate::stepping::{Pause, advance};
use call_service::{Connected, Connection, ServeFault, Served, closing, drop_body, send};
use call_words::{push_broken_body, push_outcome};
use door_moments::act;
use gw_io::{Clock, Sink, Source};
use http_chunks::BodyEnd;
use http_intake::Intake;
use http_model::ReplyForm;
use realm_door::{Door, Staged, Stepping};
use realm_model::Settings;
use std::alloc::{AllocError, Global};
use task_put::PutTask;
use task_words::{Asker, BodyEnd as TaskBodyEnd, Outcome, PutCommand};

/// Ends the body of a PUT so, and makes the events up to the outcome.
fn conclude<D: Door, C: Clock>(
    alloc: Global,
    task: &mut Stepping<PutTask>,
    end: TaskBodyEnd,
    door: &mut D,
    clock: &mut C,
) -> Result<(), ServeFault>
    requires going { IsGoing D.tells (D.settings door.old) task.old (D.told door.old) }
    requires open { (request_of task.old).end ≡ None }
    ensures up { IsUp D.tells (D.settings door.old) task.new (D.told door.new) }
    ensures ended { OnOk result (EndsSo D.tells D.alone (D.settings door.old) task.new end (D.told door.old) (D.told door.new) (C.told clock.old) (C.told clock.new)) }
    ensures stopped { OnErr result (Asks D.tells D.alone (D.settings door.old) true (D.told door.old) (D.told door.new) (C.told clock.old) (C.told clock.new)) }
    ensures request { request_of task.new ≡ ended_request (request_of task.old) end }
    ensures sound { OnOk result (fault_of task.new ≡ None) }
    ensures fault { IfErr result (StopsEvent D.tells (D.found door.new)) }
    ensures left { OnErr result (HasDone D.tells (D.settings door.old) (ended_request (request_of task.old) end) (D.told door.new)) }
    ensures stays { Stays (outside (D.settings door.old) (D.home door.old) (C.plan clock.old)) (outside (D.settings door.new) (D.home door.new) (C.plan clock.new)) }
{
    task.stages.finish(end);
    match advance(alloc, task, door, clock)? {
        Pause::Over => Ok(()),
        Pause::ByEnd => Ok(()),
        Pause::Wants => unreachable!(),
    }
}

/// How the task is told that a body ended so.
fn task_end(end: BodyEnd) -> TaskBodyEnd
    ensures { result ≡ task_end end }
{
    match end {
        BodyEnd::Whole => TaskBodyEnd::Whole,
        _ => TaskBodyEnd::Failed,
    }
}

/// Takes the task to its outcome, and the body out of the intake; what is left of a body behind the outcome is
/// dropped. Answers how the body ended; where the input ends inside it, the task has no outcome.
fn run_put<D: Door, C: Clock, S: Source>(
    alloc: Global,
    task: &mut Stepping<PutTask>,
    door: &mut D,
    clock: &mut C,
    intake: &mut Intake,
    source: &mut S,
    buffer: &mut [u8],
) -> Result<BodyEnd, ServeFault>
    requires room { 0 < length buffer.old }
    requires going { IsGoing D.tells (D.settings door.old) task.old (D.told door.old) }
    requires none { (request_of task.old).bytes ≡ [] }
    requires open { (request_of task.old).end ≡ None }
    requires intake { intake.old.failed ≡ None }
    requires few { most_due intake.old ≤ most_bytes }
    ensures ran { IfOk result (RunsTask D.tells D.alone (D.settings door.old) (request_of task.old) task.new
        (place (D.told door.old) intake.old (S.left source.old) (C.told clock.old))
        (place (D.told door.new) intake.new (S.left source.new) (C.told clock.new))) }
    ensures fault { IfErr result (StopsBody D.tells D.alone (D.settings door.old) (request_of task.old) (D.found door.new)
        (place (D.told door.old) intake.old (S.left source.old) (C.told clock.old))
        (place (D.told door.new) intake.new (S.left source.new) (C.told clock.new))) }
    ensures stays { StaysReading (reading (D.settings door.old) (D.home door.old) (C.plan clock.old) (S.faults source.old) (length buffer.old))
        (reading (D.settings door.new) (D.home door.new) (C.plan clock.new) (S.faults source.new) (length buffer.new)) result }
{
    match take_body(alloc, task, door, clock, intake, source, buffer)? {
        Taken::Over => drop_body(intake, source, buffer),
        Taken::Ended(end) => match end {
            BodyEnd::Cut => Ok(end),
            _ => {
                conclude(alloc, task, task_end(end), door, clock)?;
                Ok(end)
            }
        },
    }
}

/// The form of the reply behind a body that ended so: what is left of one closes the connection.
fn form_behind(end: BodyEnd, form: ReplyForm) -> ReplyForm
    ensures { result ≡ form_at form (fate_of end) }
{
    match end {
        BodyEnd::Whole => form,
        _ => closing(form),
    }
}

/// Adds the text of the reply of a task that ended so, behind a body that ended so.
#[tactic(auto, using(crate::proofs::Replying::end_has_reply, crate::proofs::Replying::end_text, crate::proofs::Replying::failed_wrong))]
fn push_reply(
    out: &mut Vec<u8>,
    outcome: &Outcome,
    end: BodyEnd,
    form: ReplyForm,
) -> Result<(), AllocError>
    requires { IsEndAt outcome.now (fate_of end) }
    ensures { OnOk result (out.new.items ≡ out.old.items ++ text_of form end outcome.now) }
{
    match outcome {
        Outcome::BodyFailed => push_broken_body(out, end, form),
        _ => push_outcome(out, outcome, None, form),
    }
}

/// Writes that reply. The buffer is used for its text.
fn send_reply<K: Sink>(
    sink: &mut K,
    out: &mut Vec<u8>,
    outcome: &Outcome,
    end: BodyEnd,
    form: ReplyForm,
) -> Result<(), ServeFault>
    requires { IsEndAt outcome.now (fate_of end) }
    ensures ok { OnOk result (Appends (K.taken sink.old) (K.taken sink.new) (text_of (form_at form (fate_of end)) end outcome.now)) }
    ensures stopped { IfErr result (LeavesText (K.taken sink.old) (K.taken sink.new) (text_of (form_at form (fate_of end)) end outcome.now)) }
    ensures cause { WritesAtFault (K.faults sink.old) (K.faults sink.new) result }
{
    let form = form_behind(end, form);
    out.clear();
    push_reply(out, outcome, end, form)?;
    send(sink, out.as_slice())
}

/// How a request was served whose task ended so, behind a body that ended so.
fn served_so(end: BodyEnd, outcome: &Outcome) -> Served
    ensures { result ≡ served_so end outcome.now }
{
    match end {
        BodyEnd::Whole => Served::Replied,
        _ if matches!(outcome, Outcome::BodyFailed) => Served::Refused,
        _ => Served::Closed,
    }
}

/// Serves the PUT of a task that took no byte yet: reads its body, makes its events, and writes its reply.
fn serve_body<'c, D: Door, C: Clock, S: Source, K: Sink>(
    alloc: Global,
    task: &mut Stepping<PutTask>,
    form: ReplyForm,
    connection: &mut Connection<'c, D, C, S, K>,
) -> Result<Served, ServeFault>
    requires ready { IsReady D.tells (⟦<Connection<'c, D, C, S, K> as Connected>⟧.around connection.old) task.old (⟦<Connection<'c, D, C, S, K> as Connected>⟧.side connection.old) form }
    ensures served { IfOk result (IsServed D.tells D.alone (site_at (⟦<Connection<'c, D, C, S, K> as Connected>⟧.around connection.old).settings (request_of task.old)) form
        (Put (request_of task.old).asker (request_of task.old).command) Fed (⟦<Connection<'c, D, C, S, K> as Connected>⟧.side connection.old) (⟦<Connection<'c, D, C, S, K> as Connected>⟧.side connection.new)) }
    ensures stopped { IfErr result (IsStopped D.tells D.alone (site_at (⟦<Connection<'c, D, C, S, K> as Connected>⟧.around connection.old).settings (request_of task.old)) form
        (Put (request_of task.old).asker (request_of task.old).command) Fed (⟦<Connection<'c, D, C, S, K> as Connected>⟧.found connection.new) (⟦<Connection<'c, D, C, S, K> as Connected>⟧.side connection.old) (⟦<Connection<'c, D, C, S, K> as Connected>⟧.side connection.new)) }
    ensures around { StaysAround (⟦<Connection<'c, D, C, S, K> as Connected>⟧.around connection.old) (⟦<Connection<'c, D, C, S, K> as Connected>⟧.around connection.new) result }
{
    let end = run_put(
        alloc,
        task,
        connection.door,
        connection.clock,
        connection.intake,
        connection.source,
        connection.buffer,
    )?;
    match end {
        BodyEnd::Cut => return Ok(Served::Cut),
        _ => {}
    }
    match task.stages.end() {
        Some(outcome) => {
            send_reply(connection.sink, connection.out, outcome, end, form)?;
            Ok(served_so(end, outcome))
        }
        None => unreachable!(),
    }
}

/// Writes the reply of a PUT whose outcome was there before its body, which is left, and the connection closes. The
/// buffer is used for its text.
#[tactic(auto, using(crate::proofs::Waiting::left_has_reply, crate::proofs::Waiting::left_front, crate::proofs::Waiting::ended_end))]
fn leave_body<K: Sink>(
    task: &Stepping<PutTask>,
    sink: &mut K,
    out: &mut Vec<u8>,
    form: ReplyForm,
) -> Result<Served, ServeFault>
    requires over { IsOver (stage_of task.now) }
    requires sound { fault_of task.now ≡ None }
    requires steady { IsSteady task.now.stages }
    ensures left { IfOk result (λ served. (served ≡ services.Closed)
        × Appends (K.taken sink.old) (K.taken sink.new) (left_text form (stage_of task.now))) }
    ensures stopped { IfErr result (LeavesText (K.taken sink.old) (K.taken sink.new) (left_text form (stage_of task.now))) }
    ensures cause { WritesAtFault (K.faults sink.old) (K.faults sink.new) result }
{
    let form = closing(form);
    match task.stages.end() {
        Some(outcome) => {
            out.clear();
            push_outcome(out, outcome, None, form)?;
            send(sink, out.as_slice())?;
            Ok(Served::Closed)
        }
        None => unreachable!(),
    }
}

/// Reads the row of the container, the first event of a new task.
#[tactic(auto, using(crate::proofs::Rows::has_looked, crate::proofs::Doing::still_done, crate::proofs::Doing::has_done))]
fn look<D: Door, C: Clock>(
    alloc: Global,
    task: &mut Stepping<PutTask>,
    door: &mut D,
    clock: &mut C,
) -> Result<(), ServeFault>
    requires going { IsGoing D.tells (D.settings door.old) task.old (D.told door.old) }
    requires looks { IsLooking (stage_of task.old) }
    requires open { (request_of task.old).end ≡ None }
    requires new { D.tells → IsNew (D.settings door.old) (D.told door.old) }
    ensures looked { OnOk result (HasLooked D.tells task.new (D.told door.new)) }
    ensures up { IsUp D.tells (D.settings door.old) task.new (D.told door.new) }
    ensures steady { OnOk result (IsSteady task.new.stages) }
    ensures asks { OnOk result (Asks D.tells D.alone (D.settings door.old) false (D.told door.old) (D.told door.new) (C.told clock.old) (C.told clock.new)) }
    ensures stopped { OnErr result (Asks D.tells D.alone (D.settings door.old) true (D.told door.old) (D.told door.new) (C.told clock.old) (C.told clock.new)) }
    ensures left { OnErr result (HasDone D.tells (D.settings door.old) (request_of task.old) (D.told door.new)) }
    ensures request { request_of task.new ≡ request_of task.old }
    ensures sound { OnOk result (fault_of task.new ≡ None) }
    ensures fault { IfErr result (StopsEvent D.tells (D.found door.new)) }
    ensures stays { Stays (outside (D.settings door.old) (D.home door.old) (C.plan clock.old)) (outside (D.settings door.new) (D.home door.new) (C.plan clock.new)) }
{
    act(alloc, task, door, clock)?;
    Ok(())
}

/// Tells a client that waits to send the body.
const CONTINUE: &[u8] = b"HTTP/1.1 100 Continue\r\n\r\n";

/// Serves the PUT of a new task whose client waits for a 100: reads the row of the container, and where it grants
/// the PUT writes the 100 before the body is read; where it does not, the body is left.
fn serve_waiting<'c, D: Door, C: Clock, S: Source, K: Sink>(
    alloc: Global,
    task: &mut Stepping<PutTask>,
    form: ReplyForm,
    connection: &mut Connection<'c, D, C, S, K>,
) -> Result<Served, ServeFault>
    requires ready { IsReady D.tells (⟦<Connection<'c, D, C, S, K> as Connected>⟧.around connection.old) task.old (⟦<Connection<'c, D, C, S, K> as Connected>⟧.side connection.old) form }
    requires looks { IsLooking (stage_of task.old) }
    requires new { D.tells → IsNew (⟦<Connection<'c, D, C, S, K> as Connected>⟧.around connection.old).settings (⟦<Connection<'c, D, C, S, K> as Connected>⟧.side connection.old).door }
    ensures served { IfOk result (IsServedWaiting D.tells D.alone (site_at (⟦<Connection<'c, D, C, S, K> as Connected>⟧.around connection.old).settings (request_of task.old)) form
        (request_of task.old).asker (request_of task.old).command (⟦<Connection<'c, D, C, S, K> as Connected>⟧.side connection.old) (⟦<Connection<'c, D, C, S, K> as Connected>⟧.side connection.new)) }
    ensures stopped { IfErr result (IsStoppedWaiting D.tells D.alone (site_at (⟦<Connection<'c, D, C, S, K> as Connected>⟧.around connection.old).settings (request_of task.old)) form
        (request_of task.old).asker (request_of task.old).command (⟦<Connection<'c, D, C, S, K> as Connected>⟧.found connection.new) (⟦<Connection<'c, D, C, S, K> as Connected>⟧.side connection.old) (⟦<Connection<'c, D, C, S, K> as Connected>⟧.side connection.new)) }
    ensures around { StaysAround (⟦<Connection<'c, D, C, S, K> as Connected>⟧.around connection.old) (⟦<Connection<'c, D, C, S, K> as Connected>⟧.around connection.new) result }
{
    look(alloc, task, connection.door, connection.clock)?;
    if task.stages.end().is_some() {
        return leave_body(task, connection.sink, connection.out, form);
    }
    send(connection.sink, CONTINUE)?;
    serve_body(alloc, task, form, connection)
}

/// Serves the PUT of a new task, whose client waits for a 100 or not.
fn serve_new<'c, D: Door, C: Clock, S: Source, K: Sink>(
    alloc: Global,
    task: &mut Stepping<PutTask>,
    form: ReplyForm,
    waits: bool,
    connection: &mut Connection<'c, D, C, S, K>,
) -> Result<Served, ServeFault>
    requires ready { IsReady D.tells (⟦<Connection<'c, D, C, S, K> as Connected>⟧.around connection.old) task.old (⟦<Connection<'c, D, C, S, K> as Connected>⟧.side connection.old) form }
    requires looks { IsLooking (stage_of task.old) }
    requires new { D.tells → IsNew (⟦<Connection<'c, D, C, S, K> as Connected>⟧.around connection.old).settings (⟦<Connection<'c, D, C, S, K> as Connected>⟧.side connection.old).door }
    ensures served { IfOk result (IsPutServed waits D.tells D.alone (site_at (⟦<Connection<'c, D, C, S, K> as Connected>⟧.around connection.old).settings (request_of task.old)) form
        (request_of task.old).asker (request_of task.old).command (⟦<Connection<'c, D, C, S, K> as Connected>⟧.side connection.old) (⟦<Connection<'c, D, C, S, K> as Connected>⟧.side connection.new)) }
    ensures stopped { IfErr result (IsPutStopped waits D.tells D.alone (site_at (⟦<Connection<'c, D, C, S, K> as Connected>⟧.around connection.old).settings (request_of task.old)) form
        (request_of task.old).asker (request_of task.old).command (⟦<Connection<'c, D, C, S, K> as Connected>⟧.found connection.new) (⟦<Connection<'c, D, C, S, K> as Connected>⟧.side connection.old) (⟦<Connection<'c, D, C, S, K> as Connected>⟧.side connection.new)) }
    ensures around { StaysAround (⟦<Connection<'c, D, C, S, K> as Connected>⟧.around connection.old) (⟦<Connection<'c, D, C, S, K> as Connected>⟧.around connection.new) result }
{
    if waits {
        return serve_waiting(alloc, task, form, connection);
    }
    serve_body(alloc, task, form, connection)
}

/// Serves one PUT, whose head was read, as the door's present actor, which made no event: makes its events, reads
/// its body, and writes its reply. Where the client waits for a 100, it is written behind the read of the row, which
/// grants the PUT; else the body is left and the reply closes the connection. The clock is asked once for each
/// event, and once where the end of the body decides.
pub fn serve_put<'c, D: Door, C: Clock, S: Source, K: Sink>(
    alloc: Global,
    settings: &Settings,
    zone: u8,
    asker: Asker,
    put: PutCommand,
    form: ReplyForm,
    waits: bool,
    connection: &mut Connection<'c, D, C, S, K>,
) -> Result<Served, ServeFault>
    requires ready { MayServe D.tells (⟦<Connection<'c, D, C, S, K> as Connected>⟧.around connection.old).settings zone (⟦<Connection<'c, D, C, S, K> as Connected>⟧.side connection.old).door (⟦<Connection<'c, D, C, S, K> as Connected>⟧.side connection.old).intake (⟦<Connection<'c, D, C, S, K> as Connected>⟧.around connection.old).buffer }
    requires same { (⟦<Connection<'c, D, C, S, K> as Connected>⟧.around connection.old).settings ≡ settings.now }
    requires few { most_due (⟦<Connection<'c, D, C, S, K> as Connected>⟧.side connection.old).intake ≤ most_bytes }
    requires form { form.bodiless ≡ false }

    // The whole reply was written behind the body, or with the body left; or the input ended inside the body.
    ensures served { IfOk result (IsPutServed waits D.tells D.alone
        (record { settings = (⟦<Connection<'c, D, C, S, K> as Connected>⟧.around connection.old).settings; zone = zone }) form asker put (⟦<Connection<'c, D, C, S, K> as Connected>⟧.side connection.old) (⟦<Connection<'c, D, C, S, K> as Connected>⟧.side connection.new)) }

    // Only a write that failed leaves a front of a text.
    ensures stopped { IfErr result (IsPutStopped waits D.tells D.alone
        (record { settings = (⟦<Connection<'c, D, C, S, K> as Connected>⟧.around connection.old).settings; zone = zone }) form asker put (⟦<Connection<'c, D, C, S, K> as Connected>⟧.found connection.new) (⟦<Connection<'c, D, C, S, K> as Connected>⟧.side connection.old) (⟦<Connection<'c, D, C, S, K> as Connected>⟧.side connection.new)) }

    ensures around { StaysAround (⟦<Connection<'c, D, C, S, K> as Connected>⟧.around connection.old) (⟦<Connection<'c, D, C, S, K> as Connected>⟧.around connection.new) result }
{
    let Ok(stages) = PutTask::new(alloc, settings, zone, asker, put) else {
        return Err(ServeFault::OutOfMemory);
    };
    let mut task = Stepping::new(stages);
    let served = serve_new(alloc, &mut task, form, waits, connection);
    drop(task);
    served
}
