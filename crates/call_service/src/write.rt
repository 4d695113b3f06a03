//! Whole texts to a sink.
ghost use Rattle.std.specs.Prelude.{◌≡◌, ◌≢◌, ◌++◌, true, OnOk, OnErr, IfErr};
ghost use Rattle.std.specs.Io.KnownBytes.{Appends};
ghost use Rattle.call_words.specs.Bodies.{IsWrong};
ghost use Rattle.call_words.specs.Texts.{broken_text};
ghost use Rattle.call_service.specs.Serving.{AppendsFront, LeavesText, WritesAtFault};
ghost use Rattle.call_service.specs.declared.fault.ServeFault.TheVariants.{WriteFault};

use crate::ServeFault;
use call_words::push_broken_body;
use gw_io::{Sink, write_all};
use http_chunks::BodyEnd;
use http_model::ReplyForm;

/// Writes all of these bytes. Only a write that fails stops it.
#[tactic(auto, using(crate::proofs::Fronts::front_of_prefix))]
pub fn send<K: Sink>(sink: &mut K, bytes: &[u8]) -> Result<(), ServeFault>
    ensures ok { OnOk result (Appends (K.taken sink.old) (K.taken sink.new) bytes.now) }
    ensures err { OnErr result (AppendsFront (K.taken sink.old) (K.taken sink.new) bytes.now) }
    ensures fault { IfErr result (λ fault. fault ≡ WriteFault) }
    ensures cause { WritesAtFault (K.faults sink.old) (K.faults sink.new) result }
{
    match write_all(sink, bytes) {
        Ok(()) => Ok(()),
        Err(_) => Err(ServeFault::WriteFault),
    }
}

/// Writes all of these bytes and then those.
#[tactic(auto, using(crate::proofs::Fronts::front_longer, crate::proofs::Fronts::front_behind))]
pub fn send_both<K: Sink>(sink: &mut K, first: &[u8], second: &[u8]) -> Result<(), ServeFault>
    ensures ok { OnOk result (Appends (K.taken sink.old) (K.taken sink.new) (first.now ++ second.now)) }
    ensures err { OnErr result (AppendsFront (K.taken sink.old) (K.taken sink.new) (first.now ++ second.now)) }
    ensures fault { IfErr result (λ fault. fault ≡ WriteFault) }
    ensures cause { WritesAtFault (K.faults sink.old) (K.faults sink.new) result }
{
    send(sink, first)?;
    send(sink, second)
}

/// The form of a reply that closes the connection.
pub fn closing(form: ReplyForm) -> ReplyForm
    ensures { result ≡ record form { close = true } }
{
    ReplyForm {
        bodiless: form.bodiless,
        close: true,
    }
}

/// Writes that a body that was wanted broke off. The buffer is used for the text.
pub fn send_broken_body<K: Sink>(
    sink: &mut K,
    out: &mut Vec<u8>,
    why: BodyEnd,
    form: ReplyForm,
) -> Result<(), ServeFault>
    requires { IsWrong why }
    ensures ok { OnOk result (Appends (K.taken sink.old) (K.taken sink.new) (broken_text form why)) }
    ensures err { IfErr result (LeavesText (K.taken sink.old) (K.taken sink.new) (broken_text form why)) }
    ensures cause { WritesAtFault (K.faults sink.old) (K.faults sink.new) result }
{
    out.clear();
    push_broken_body(out, why, form)?;
    send(sink, out.as_slice())
}
