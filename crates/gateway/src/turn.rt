//! One turn of a connection: the next request is read and replied to.
ghost use Rattle.std.specs.Prelude.{◌≡◌, IfOk, IfErr};
ghost use Rattle.call_service.specs.Serving.{WritesAtFault, LeavesText};
ghost use Rattle.std.specs.Io.KnownBytes.{Appends};
ghost use Rattle.http_model.specs.Replies.{bad_request_text};
ghost use Rattle.gateway.specs.declared.serve.ConnEnd.TheVariants as ends;
ghost use Rattle.gateway.specs.Texts.{closing};
ghost use Rattle.gateway.specs.Calls.{MayGoOn, place_of};
ghost use Rattle.gateway.specs.Requests.{IsReady};
ghost use Rattle.gateway.specs.Turns.{KeepsPlace, TakesTurn, EndsHeads, EndsSo, LeavesSo};

use crate::by_head::send_bad_request;
use crate::request::serve_request;
use crate::{ConnEnd, ServeFault};
use call_service::{Connected, Connection};
use gw_io::{Clock, Sink, Source};
use http_intake::IntakeFault;
use http_model::BadRequest;
use realm_door::Door;
use realm_model::Settings;
use std::alloc::Global;
use swift_auth::Users;

/// What a turn of a connection comes to.
#[derive(Clone, Copy, Debug, PartialEq, Eq)]
pub(crate) enum Turn {
    /// A request was replied, and another may follow.
    Further,
    /// The connection is over: how many replies the turn wrote, and the end.
    Over(u64, ConnEnd),
}

/// Refuses what is no request, and ends the connection.
fn refuse<K: Sink>(
    sink: &mut K,
    out: &mut Vec<u8>,
    word: BadRequest,
    bodiless: bool,
) -> Result<Turn, ServeFault>
    ensures ok { IfOk result (λ turn. (turn ≡ Turn.Over 1 ends.Refused)
        × Appends (K.taken sink.old) (K.taken sink.new) (bad_request_text (closing bodiless) word)) }
    ensures err { IfErr result (LeavesText (K.taken sink.old) (K.taken sink.new) (bad_request_text (closing bodiless) word)) }
    ensures cause { WritesAtFault (K.faults sink.old) (K.faults sink.new) result }
{
    send_bad_request(sink, out, word, bodiless)?;
    Ok(Turn::Over(1, ConnEnd::Refused))
}

/// Ends a connection whose next head was not read for this cause.
fn end_heads<K: Sink>(
    sink: &mut K,
    out: &mut Vec<u8>,
    fault: IntakeFault,
) -> Result<Turn, ServeFault>
    requires { EndsHeads fault }
    ensures ended { IfOk result (EndsSo (K.taken sink.old) (K.taken sink.new) fault) }
    ensures left { IfErr result (LeavesSo (K.taken sink.old) (K.taken sink.new) fault) }
    ensures cause { WritesAtFault (K.faults sink.old) (K.faults sink.new) result }
{
    match fault {
        IntakeFault::OutOfMemory => Err(ServeFault::OutOfMemory),
        IntakeFault::ReadFault => Err(ServeFault::ReadFault),
        IntakeFault::Cut => Ok(Turn::Over(0, ConnEnd::Cut)),
        IntakeFault::BadHead => refuse(sink, out, BadRequest::Head, false),
        IntakeFault::HeadTooLarge => refuse(sink, out, BadRequest::Size, false),
        IntakeFault::BadFraming { bodiless } => refuse(sink, out, BadRequest::Framing, bodiless),
        IntakeFault::BadChunk | IntakeFault::BodyTooLarge => unreachable!(),
    }
}

/// Reads the next request of a connection, its `k`th, and replies to it.
pub(crate) fn take_turn<'c, D: Door, C: Clock, S: Source, K: Sink>(
    alloc: Global,
    k: u64,
    settings: &Settings,
    zone: u8,
    users: &Users,
    connection: &mut Connection<'c, D, C, S, K>,
) -> Result<Turn, ServeFault>
    requires goes { MayGoOn D.tells settings.now (⟦<Connection<'c, D, C, S, K> as Connected>⟧.around connection.old).settings zone (⟦<Connection<'c, D, C, S, K> as Connected>⟧.side connection.old).door (⟦<Connection<'c, D, C, S, K> as Connected>⟧.around connection.old).buffer }
    requires ready { IsReady settings.now.largest (⟦<Connection<'c, D, C, S, K> as Connected>⟧.side connection.old).intake }
    ensures turn { TakesTurn D.tells D.alone (place_of settings.now zone users.now) k (⟦<Connection<'c, D, C, S, K> as Connected>⟧.found connection.new) (⟦<Connection<'c, D, C, S, K> as Connected>⟧.side connection.old) (⟦<Connection<'c, D, C, S, K> as Connected>⟧.side connection.new) result }
    ensures stays { KeepsPlace (⟦<Connection<'c, D, C, S, K> as Connected>⟧.around connection.old) (⟦<Connection<'c, D, C, S, K> as Connected>⟧.around connection.new) }
{
    match connection.intake.next(alloc, connection.source) {
        Ok(Some(head)) => serve_request(alloc, k, settings, zone, users, &head, connection),
        Ok(None) => Ok(Turn::Over(0, ConnEnd::Clean)),
        Err(fault) => end_heads(connection.sink, connection.out, fault),
    }
}
