ghost use Rattle.std.specs.Prelude.{◌≡◌, ◌⊎◌, [], true, false, None, length, IfSome, IfNone, IfOk, OnOk, IfErr};
ghost use Rattle.std.specs.Io.KnownBytes.{Appends};
ghost use Rattle.door_moments.specs.Acts.{Asks, IsUpTo};
ghost use Rattle.call_words.specs.Bodies.{IsWrong};
ghost use Rattle.call_words.specs.Ends.{body_failed, is_by_row};
ghost use Rattle.call_service.specs.Bodies.{dropped_if};
ghost use Rattle.call_service.specs.Serving.{MayServe, IsServed, IsStopped, Stays, StaysAround, WritesAtFault, outside};
ghost use Rattle.call_service.specs.Replying.{Replies, StopsReply, stand};
ghost use Rattle.request_service.specs.Requests.{site_of, FitsFirst};
ghost use Rattle.request_service.specs.Writing.{HasWritten};
ghost use Rattle.request_service.specs.Early.{EndsEarlyBy, EndsEarly, WantsMemory, LeavesPart};

use crate::ending::Ending;
use crate::request::Request;
use crate::write::{send_end, send_outcome, send_piece};
use call_service::{
    Connected, Connection, ServeFault, Served, closing, drop_body, send_broken_body,
};
use door_moments::act;
use gw_io::{Clock, Sink, Source};
use http_chunks::BodyEnd;
use http_model::ReplyForm;
use realm_door::{Door, Staged, Stepping};
use std::alloc::Global;

/// Goes on to the outcome, and writes each piece as it comes. Whether the head of the reply is written by then.
fn send_pieces<T: Request + Drop, D: Door, C: Clock, K: Sink>(
    alloc: Global,
    task: &mut Stepping<T>,
    form: ReplyForm,
    door: &mut D,
    clock: &mut C,
    sink: &mut K,
    out: &mut Vec<u8>,
) -> Result<bool, ServeFault>
    requires unfaulted { task.old.fault ≡ None }
    requires sound { T.is_sound task.old.stages }
    requires up { IsUpTo T.fits D.tells (D.settings door.old) task.old.stages (D.told door.old) }
    requires none { D.tells → T.brought (T.command task.old.stages) (D.told door.old) ≡ [] }
    ensures sound { OnOk result (T.is_sound task.new.stages) }
    ensures over { OnOk result (T.is_over task.new.stages) }
    ensures up { OnOk result (IsUpTo T.fits D.tells (D.settings door.old) task.new.stages (D.told door.new)) }
    ensures written { IfOk result (λ begun. HasWritten D.tells form (T.question (T.command task.old.stages)).asked (T.shown task.new.stages)
        (T.brought (T.command task.old.stages) (D.told door.new)) begun (K.taken sink.old) (K.taken sink.new)) }
    ensures asks { OnOk result (Asks D.tells D.alone (D.settings door.old) false
        (D.told door.old) (D.told door.new) (C.told clock.old) (C.told clock.new)) }
    ensures stopped { IfErr result (StopsReply D.tells D.alone (site_of (D.settings door.old) (T.question (T.command task.old.stages))) form
        (T.question (T.command task.old.stages)).asked (D.found door.new)
        (stand (D.told door.old) (K.taken sink.old) (C.told clock.old)) (stand (D.told door.new) (K.taken sink.new) (C.told clock.new))) }
    ensures cause { WritesAtFault (K.faults sink.old) (K.faults sink.new) result }
    ensures command { T.command task.new.stages ≡ T.command task.old.stages }
    ensures stays { Stays (outside (D.settings door.old) (D.home door.old) (C.plan clock.old)) (outside (D.settings door.new) (D.home door.new) (C.plan clock.new)) }
{
    let mut begun = false;
    'events: while task.stages.ended().is_none() {
        act(alloc, task, door, clock)?;
        if !task.stages.piece().is_empty() {
            send_piece(&task.stages, form, begun, sink, out)?;
            begun = true;
        }
    }
    Ok(begun)
}

/// Makes the events up to the outcome, and writes the reply.
fn send_reply<T: Request + Drop, D: Door, C: Clock, K: Sink>(
    alloc: Global,
    task: &mut Stepping<T>,
    form: ReplyForm,
    door: &mut D,
    clock: &mut C,
    sink: &mut K,
    out: &mut Vec<u8>,
) -> Result<(), ServeFault>
    requires unfaulted { task.old.fault ≡ None }
    requires sound { T.is_sound task.old.stages }
    requires up { IsUpTo T.fits D.tells (D.settings door.old) task.old.stages (D.told door.old) }
    requires none { D.tells → T.brought (T.command task.old.stages) (D.told door.old) ≡ [] }
    ensures written { OnOk result (Replies D.tells (site_of (D.settings door.old) (T.question (T.command task.old.stages))) form
        (T.question (T.command task.old.stages)).asked (D.told door.new) (Appends (K.taken sink.old) (K.taken sink.new))) }
    ensures asks { OnOk result (Asks D.tells D.alone (D.settings door.old) false
        (D.told door.old) (D.told door.new) (C.told clock.old) (C.told clock.new)) }
    ensures stopped { IfErr result (StopsReply D.tells D.alone (site_of (D.settings door.old) (T.question (T.command task.old.stages))) form
        (T.question (T.command task.old.stages)).asked (D.found door.new)
        (stand (D.told door.old) (K.taken sink.old) (C.told clock.old)) (stand (D.told door.new) (K.taken sink.new) (C.told clock.new))) }
    ensures cause { WritesAtFault (K.faults sink.old) (K.faults sink.new) result }
    ensures stays { Stays (outside (D.settings door.old) (D.home door.old) (C.plan clock.old)) (outside (D.settings door.new) (D.home door.new) (C.plan clock.new)) }
{
    let begun = send_pieces(alloc, task, form, door, clock, sink, out)?;
    let request = &task.stages;
    match request.ended() {
        Some(outcome) => send_end(alloc, request, outcome, form, begun, sink, out),
        None => unreachable!(),
    }
}

/// The outcome with which the row of the container refused the request, if it did.
fn refused_by_row<T: Request>(request: &T) -> Option<&T::Outcome>
    ensures row { IfSome result (λ outcome. T.ends_with request.now outcome.now × (is_by_row (T.end_by outcome.now) ≡ true)) }
    ensures other { IfNone result (EndsEarlyBy (T.is_over request.now) (T.ends_with request.now) T.end_by (λ end. end ≡ body_failed)) }
{
    let outcome = request.ended()?;
    match T::ending(outcome) {
        Ending::ByRow => Some(outcome),
        _ => None,
    }
}

/// Writes the reply where the body broke off behind the first event, and the connection closes: what the row
/// refused, or that the body broke off. The clock is asked once for that.
fn end_early<T: Request, C: Clock, K: Sink>(
    alloc: Global,
    request: &T,
    why: BodyEnd,
    form: ReplyForm,
    clock: &mut C,
    sink: &mut K,
    out: &mut Vec<u8>,
) -> Result<Served, ServeFault>
    requires wrong { IsWrong why }
    requires sound { T.is_sound request.now }
    ensures ended { IfOk result (λ served. EndsEarlyBy (T.is_over request.now) (T.ends_with request.now) T.end_by
        (EndsEarly form (T.question (T.command request.now)).asked why (T.is_broken request.now)
        (K.taken sink.old) (K.taken sink.new) (C.told clock.old) (C.told clock.new) served)) }
    ensures left { IfErr result (λ fault. WantsMemory (T.is_broken request.now) (K.taken sink.old) (K.taken sink.new) (C.told clock.old) (C.told clock.new) fault
        ⊎ EndsEarlyBy (T.is_over request.now) (T.ends_with request.now) T.end_by
        (LeavesPart form (T.question (T.command request.now)).asked why (T.is_broken request.now)
        (K.taken sink.old) (K.taken sink.new) (C.told clock.old) (C.told clock.new) fault)) }
    ensures cause { WritesAtFault (K.faults sink.old) (K.faults sink.new) result }
    ensures plan { C.plan clock.new ≡ C.plan clock.old }
{
    if request.is_broken() {
        return Err(ServeFault::OutOfMemory);
    }
    let form = closing(form);
    if let Some(outcome) = refused_by_row(request) {
        send_outcome(alloc, request, outcome, form, sink, out)?;
        return Ok(Served::Closed);
    }
    let _moment = clock.now();
    send_broken_body(sink, out, why, form)?;
    Ok(Served::Refused)
}

/// Serves one request that wants no body, whose head was read, as the door's present actor, which made no event:
/// reads the row of the container, drops the body of the request, makes the other events, and writes the reply,
/// each piece of it as it comes. The clock is asked once for each event, and once where wrong chunks decide. A
/// body that is not to be read is left.
pub fn serve_unfed<'c, T: Request + Drop, D: Door, C: Clock, S: Source, K: Sink>(
    alloc: Global,
    task: &mut Stepping<T>,
    form: ReplyForm,
    read: bool,
    connection: &mut Connection<'c, D, C, S, K>,
) -> Result<Served, ServeFault>
    requires unfaulted { task.old.fault ≡ None }
    requires begins { T.begins task.old.stages }
    requires fits { FitsFirst (D.settings connection.old.door.now) (T.question (T.command task.old.stages)).zone (T.fits task.old.stages) }
    requires ready { MayServe D.tells (D.settings connection.old.door.now) (T.question (T.command task.old.stages)).zone
        (D.told connection.old.door.now) connection.old.intake.now (length connection.old.buffer.now) }
    requires shut { read ≡ false → form.close ≡ true }

    // The whole reply was written behind the body, or with the body left; or the input ended inside the body and
    // nothing was.
    ensures served { IfOk result (IsServed D.tells D.alone (site_of (D.settings connection.old.door.now) (T.question (T.command task.old.stages))) form
        (T.question (T.command task.old.stages)).asked (dropped_if read)
        (⟦<Connection<'c, D, C, S, K> as Connected>⟧.side connection.old) (⟦<Connection<'c, D, C, S, K> as Connected>⟧.side connection.new)) }

    // Nothing was written, or a front of the reply.
    ensures stopped { IfErr result (IsStopped D.tells D.alone (site_of (D.settings connection.old.door.now) (T.question (T.command task.old.stages))) form
        (T.question (T.command task.old.stages)).asked (dropped_if read) (⟦<Connection<'c, D, C, S, K> as Connected>⟧.found connection.new)
        (⟦<Connection<'c, D, C, S, K> as Connected>⟧.side connection.old) (⟦<Connection<'c, D, C, S, K> as Connected>⟧.side connection.new)) }

    ensures around { StaysAround (⟦<Connection<'c, D, C, S, K> as Connected>⟧.around connection.old) (⟦<Connection<'c, D, C, S, K> as Connected>⟧.around connection.new) result }
{
    if !read {
        send_reply(
            alloc,
            task,
            form,
            connection.door,
            connection.clock,
            connection.sink,
            connection.out,
        )?;
        return Ok(Served::Replied);
    }
    act(alloc, task, connection.door, connection.clock)?;
    match drop_body(connection.intake, connection.source, connection.buffer)? {
        BodyEnd::Whole => {
            send_reply(
                alloc,
                task,
                form,
                connection.door,
                connection.clock,
                connection.sink,
                connection.out,
            )?;
            Ok(Served::Replied)
        }
        BodyEnd::Cut => Ok(Served::Cut),
        why => end_early(
            alloc,
            &task.stages,
            why,
            form,
            connection.clock,
            connection.sink,
            connection.out,
        ),
    }
}
