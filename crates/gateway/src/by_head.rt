//! Replies that rest on the head of a request alone: refusals before any name is looked at, and what a login is
//! answered.
ghost use Rattle.std.specs.Prelude.{◌≡◌, ◌<◌, ◌++◌, None, false, IfOk, OnOk, IfErr, length, [], true};
ghost use Rattle.std.specs.Io.KnownBytes.{Appends};
ghost use Rattle.http_model.specs.Replies.{bad_request_text};
ghost use Rattle.swift_requests.specs.Bodies.{is_unread, is_awaited};
ghost use Rattle.call_words.specs.Bodies.{read_whole, is_broken};
ghost use Rattle.call_words.specs.Calls.{alone, text_by, IsByHead};
ghost use Rattle.call_service.specs.Bodies.{ReadsAtFault};
ghost use Rattle.call_service.specs.Serving.{WritesAtFault, LeavesText};
ghost use Rattle.call_service.specs.declared.fault.ServeFault.TheVariants as faults;
ghost use Rattle.gateway.specs.Texts.{closing};
ghost use Rattle.gateway.specs.Requests.{UsesBody, LeavesBody, RepliesByHead, LeavesReply, is_cut, fate_by};

use call_service::{ServeFault, Served, closing, drop_body, send};
use gw_io::{Sink, Source};
use http_chunks::BodyEnd;
use http_intake::Intake;
use http_model::{BadRequest, ReplyForm};
use std::alloc::AllocError;
use swift_reply::{push_bad_request, push_let_in, push_refusal};
use swift_requests::{Asked, BodyUse};

/// Adds the text of a reply to what is answered by its head alone.
fn push_by_head(out: &mut Vec<u8>, asked: &Asked, form: ReplyForm) -> Result<(), AllocError>
    requires { IsByHead asked.now }
    ensures { OnOk result (out.new.items ≡ out.old.items ++ text_by form asked.now read_whole alone []) }
{
    match asked {
        Asked::BadHost => push_bad_request(out, BadRequest::Host, form),
        Asked::Refused(refusal) => push_refusal(out, refusal, form),
        Asked::Login {
            host,
            account,
            token,
        } => push_let_in(out, host, account, token, form),
        Asked::Put { .. } | Asked::Unfed { .. } => unreachable!(),
    }
}

/// Writes that text. The buffer is used for it.
fn send_by_head<K: Sink>(
    sink: &mut K,
    out: &mut Vec<u8>,
    asked: &Asked,
    form: ReplyForm,
) -> Result<(), ServeFault>
    requires { IsByHead asked.now }
    ensures ok { OnOk result (Appends (K.taken sink.old) (K.taken sink.new) (text_by form asked.now read_whole alone [])) }
    ensures err { IfErr result (LeavesText (K.taken sink.old) (K.taken sink.new) (text_by form asked.now read_whole alone [])) }
    ensures cause { WritesAtFault (K.faults sink.old) (K.faults sink.new) result }
{
    out.clear();
    push_by_head(out, asked, form)?;
    send(sink, out.as_slice())
}

/// Writes the 400 for what is no request, which closes the connection. The buffer is used for its text.
pub(crate) fn send_bad_request<K: Sink>(
    sink: &mut K,
    out: &mut Vec<u8>,
    word: BadRequest,
    bodiless: bool,
) -> Result<(), ServeFault>
    ensures ok { OnOk result (Appends (K.taken sink.old) (K.taken sink.new) (bad_request_text (closing bodiless) word)) }
    ensures err { IfErr result (LeavesText (K.taken sink.old) (K.taken sink.new) (bad_request_text (closing bodiless) word)) }
    ensures cause { WritesAtFault (K.faults sink.old) (K.faults sink.new) result }
{
    let close = true;
    let form = ReplyForm { bodiless, close };
    out.clear();
    push_bad_request(out, word, form)?;
    send(sink, out.as_slice())
}

/// Reads a body that is not wanted, where it is read, and says how it ended; none where it is not.
fn use_body<S: Source>(
    plan: BodyUse,
    intake: &mut Intake,
    source: &mut S,
    buffer: &mut [u8],
) -> Result<Option<BodyEnd>, ServeFault>
    requires room { 0 < length buffer.old }
    requires sound { intake.old.failed ≡ None }
    ensures used { IfOk result (UsesBody plan intake.old intake.new (S.left source.old) (S.left source.new)) }
    ensures err { IfErr result (LeavesBody plan intake.old (S.left source.old) (S.left source.new)) }
    ensures cause { ReadsAtFault (S.faults source.old) (S.faults source.new) result }
    ensures kept { length buffer.new ≡ length buffer.old }
{
    if plan.is_unread() {
        return Ok(None);
    }
    let end = drop_body(intake, source, buffer)?;
    Ok(Some(end))
}

/// Whether the input ended inside the body.
fn is_cut(end: Option<BodyEnd>) -> bool
    ensures { result ≡ is_cut end }
{
    matches!(end, Some(BodyEnd::Cut))
}

/// Whether the body's chunks went wrong.
fn is_broken(end: Option<BodyEnd>) -> bool
    requires { is_cut end ≡ false }
    ensures { result ≡ is_broken (fate_by end) }
{
    matches!(end, Some(BodyEnd::BadChunk | BodyEnd::TooLarge))
}

/// Replies to a request that is answered by its head alone, behind its body, or behind what was read of one
/// whose chunks go wrong.
pub(crate) fn serve_by_head<S: Source, K: Sink>(
    asked: &Asked,
    plan: BodyUse,
    form: ReplyForm,
    intake: &mut Intake,
    source: &mut S,
    sink: &mut K,
    buffer: &mut [u8],
    out: &mut Vec<u8>,
) -> Result<Served, ServeFault>
    requires by_head { IsByHead asked.now }
    requires room { 0 < length buffer.old }
    requires sound { intake.old.failed ≡ None }
    requires quiet { is_awaited plan ≡ false }
    requires shut { is_unread plan ≡ true → form.close ≡ true }
    ensures served { IfOk result (RepliesByHead form asked.now plan intake.old intake.new
        (S.left source.old) (S.left source.new) (K.taken sink.old) (K.taken sink.new)) }
    ensures left { IfErr result (LeavesReply form asked.now plan intake.old intake.new
        (S.left source.old) (S.left source.new) (K.taken sink.old) (K.taken sink.new)) }
    ensures reads { ReadsAtFault (S.faults source.old) (S.faults source.new) result }
    ensures writes { WritesAtFault (K.faults sink.old) (K.faults sink.new) result }
    ensures kept { length buffer.new ≡ length buffer.old }
{
    let end = use_body(plan, intake, source, buffer)?;
    if is_cut(end) {
        return Ok(Served::Cut);
    }
    if is_broken(end) {
        send_by_head(sink, out, asked, closing(form))?;
        return Ok(Served::Closed);
    }
    send_by_head(sink, out, asked, form)?;
    Ok(Served::Replied)
}
