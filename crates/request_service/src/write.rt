//! The reply, written piece by piece and at its end.
ghost use Rattle.std.specs.Prelude.{◌≡◌, true, false, OnOk, IfErr, IsSome};
ghost use Rattle.std.specs.Io.KnownBytes.{Appends};
ghost use Rattle.call_words.specs.Bodies.{read_whole};
ghost use Rattle.call_words.specs.Texts.{told_by, HasReply};
ghost use Rattle.call_service.specs.Serving.{LeavesText, WritesAtFault};
ghost use Rattle.request_service.specs.Requests.{text_at, is_late, MayEnd};
ghost use Rattle.request_service.specs.Writing.{piece_text, StopsPiece, end_text, StopsEnd};

use crate::ending::Ending;
use crate::request::Request;
use call_service::{ServeFault, send, send_both};
use gw_io::Sink;
use http_model::ReplyForm;
use realm_door::Staged;
use std::alloc::Global;

/// Up to so many bytes a first piece is written at once with the head before it.
const SMALL_PIECE: usize = 4096;

/// Writes the bytes that came last, with the head of the reply before the first of them.
pub(crate) fn send_piece<T: Request, K: Sink>(
    request: &T,
    form: ReplyForm,
    begun: bool,
    sink: &mut K,
    out: &mut Vec<u8>,
) -> Result<(), ServeFault>
    requires sound { T.is_sound request.now }
    requires shown { IsSome (T.shown request.now) }
    ensures ok { OnOk result (Appends (K.taken sink.old) (K.taken sink.new)
        (piece_text form (T.question (T.command request.now)).asked begun (T.shown request.now) (T.piece request.now))) }
    ensures err { IfErr result (StopsPiece form (T.question (T.command request.now)).asked begun (T.shown request.now) (T.piece request.now)
        (K.taken sink.old) (K.taken sink.new)) }
    ensures cause { WritesAtFault (K.faults sink.old) (K.faults sink.new) result }
{
    let piece: &[u8] = if form.bodiless { &[] } else { request.piece() };
    if begun {
        return send(sink, piece);
    }
    out.clear();
    request.push_head(out, form)?;
    if piece.len() > SMALL_PIECE {
        return send_both(sink, out.as_slice(), piece);
    }
    out.extend_from_slice(piece)?;
    send(sink, out.as_slice())
}

/// Writes the reply with which a task ended that gave no bytes.
pub(crate) fn send_outcome<T: Request, K: Sink>(
    alloc: Global,
    request: &T,
    outcome: &T::Outcome,
    form: ReplyForm,
    sink: &mut K,
    out: &mut Vec<u8>,
) -> Result<(), ServeFault>
    requires sound { T.is_sound request.now }
    requires replied { HasReply (told_by (T.question (T.command request.now)).asked read_whole (T.end_by outcome.now)) }
    ensures ok { OnOk result (Appends (K.taken sink.old) (K.taken sink.new) (text_at form (T.question (T.command request.now)).asked (T.end_by outcome.now))) }
    ensures err { IfErr result (LeavesText (K.taken sink.old) (K.taken sink.new) (text_at form (T.question (T.command request.now)).asked (T.end_by outcome.now))) }
    ensures cause { WritesAtFault (K.faults sink.old) (K.faults sink.new) result }
{
    out.clear();
    request.push_reply(alloc, out, outcome, form)?;
    send(sink, out.as_slice())
}

/// Writes the reply with which a task ended, unless its head was written before. A stripe that was gone is told.
pub(crate) fn send_end<T: Request, K: Sink>(
    alloc: Global,
    request: &T,
    outcome: &T::Outcome,
    form: ReplyForm,
    begun: bool,
    sink: &mut K,
    out: &mut Vec<u8>,
) -> Result<(), ServeFault>
    requires sound { T.is_sound request.now }
    requires may { MayEnd (T.question (T.command request.now)).asked (T.shown request.now) (T.end_by outcome.now) }
    ensures ok { OnOk result ((is_late (T.end_by outcome.now) ≡ false)
        × Appends (K.taken sink.old) (K.taken sink.new) (end_text form (T.question (T.command request.now)).asked begun (T.end_by outcome.now))) }
    ensures err { IfErr result (StopsEnd form (T.question (T.command request.now)).asked begun (T.end_by outcome.now) (K.taken sink.old) (K.taken sink.new)) }
    ensures cause { WritesAtFault (K.faults sink.old) (K.faults sink.new) result }
{
    if let Ending::Late { read_at, clock } = T::ending(outcome) {
        return Err(ServeFault::Late { read_at, clock });
    }
    if begun {
        return Ok(());
    }
    send_outcome(alloc, request, outcome, form, sink, out)
}
