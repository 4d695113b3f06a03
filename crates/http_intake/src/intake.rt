ghost use Rattle.std.specs.Prelude.{◌≡◌, ◌<◌, length, IfOk, MatchResult, Some, None, Ok, Err, true, false};
ghost use Rattle.http_model.specs.Forms.{content_length};
ghost use Rattle.http_intake.specs.declared.fault.IntakeFault.{IntakeFault as Fault};

use crate::buffer::Buffer;
use crate::next_bytes::take_bytes;
use crate::next_chunk::take_chunk;
use crate::next_head::take_head;
use crate::{Framing, Head, IntakeFault};
use gw_io::Source;
use std::alloc::{AllocError, Global};
use std::marker::Model;

/// How many bytes the body behind a head has; 0 where it is in chunks.
fn content_length(framing: Framing) -> u64
    ensures { result ≡ content_length framing }
{
    match framing {
        Framing::Length(count) => count,
        Framing::Empty | Framing::Chunked => 0,
    }
}

/// Reads the requests of one connection from its source: the heads by `next`, the bytes of each body
/// by `body`. After any fault it answers that fault again, and reads nothing more.
///
/// Contracts see the bytes that were read and not yet given out; how many bytes of the present body,
/// or of its present chunk, are still to be given; whether that body is in chunks, whether one of
/// them was begun, and how many bytes the further ones may have together; the fault that was
/// answered; and how many bytes the chunks of a body may have together.
#[derive(Debug, Drop)]
pub struct Intake {
    buffer: Buffer,
    body_left: u64,
    chunked: bool,
    behind: bool,
    room: u64,
    failed: Option<IntakeFault>,
    largest: u64,
}

impl Model for Intake {
    ghost use Rattle.http_intake.specs.Intake.{IntakeState};

    ghost Value = { IntakeState };

    ghost view = { λ intake. record {
      buffer = intake.buffer;
      body_left = intake.body_left;
      chunked = intake.chunked;
      behind = intake.behind;
      room = intake.room;
      failed = intake.failed;
      largest = intake.largest;
    } };
}

impl Intake {
    ghost use Rattle.http_intake.specs.Intake.{fresh, IsBetween, IsWhole, is_line_due, GivesNext, GivesBody, OpensBody, GivesChunk};
    ghost use Rattle.http_intake.specs.Grammar.{ReadsBody};
    ghost use Rattle.http_intake.specs.Faults.{CountsFaults, HasFaultCause, KeepsFault};

    /// An intake of a connection, before its first byte. The chunks of a body may have `largest`
    /// bytes together.
    pub fn new(alloc: Global, largest: u64) -> Result<Intake, AllocError>
        ensures { IfOk result (λ intake. intake ≡ fresh largest) }
    {
        Ok(Intake {
            buffer: Buffer::new(alloc)?,
            body_left: 0,
            chunked: false,
            behind: false,
            room: largest,
            failed: None,
            largest,
        })
    }

    /// The next head; none where the input ends between two requests, also behind empty lines
    /// (RFC 9112, sections 2.2 and 3). Nothing is read once the head is there.
    /// Want of memory is answered like any other fault.
    pub fn next<S: Source>(
        &mut self,
        alloc: Global,
        source: &mut S,
    ) -> Result<Option<Head>, IntakeFault>
        requires { self.old.failed ≡ None → IsBetween self.old }

        // A fault is answered again, and nothing is read.
        ensures again { (fault : Fault) → self.old.failed ≡ Some fault →
            (result ≡ Err fault) × (self.new ≡ self.old) × (source.new ≡ source.old) }

        // The bytes that waited and those that were read now begin with this head, or with none for that cause.
        ensures found { self.old.failed ≡ None →
            GivesNext (S.left source.old) (S.left source.new) self.old self.new result }

        ensures cause { HasFaultCause self.old.failed (S.faults source.old) (S.faults source.new) result }
    {
        if let Some(fault) = self.failed {
            return Err(fault);
        }
        match take_head(alloc, &mut self.buffer, source) {
            Ok(None) => Ok(None),
            Ok(Some(head)) => {
                self.body_left = content_length(head.framing);
                self.chunked = head.framing == Framing::Chunked;
                self.behind = false;
                self.room = self.largest;
                Ok(Some(head))
            }
            Err(fault) => Err(self.fail(fault)),
        }
    }

    /// Moves the next bytes of the present body to the front of `out`, and answers their number: at
    /// least one, unless the body was given whole or `out` is empty. In a body in chunks it gives no
    /// bytes of two chunks at once; chunk extensions and trailers are read and dropped (RFC 9112,
    /// section 7.1). What stands in `out` behind the bytes, and after a fault, is left open. Takes no
    /// memory.
    pub fn body<S: Source>(&mut self, source: &mut S, out: &mut [u8]) -> Result<usize, IntakeFault>
        // A fault is answered again, and nothing is read.
        ensures again { (fault : Fault) → self.old.failed ≡ Some fault →
            (result ≡ Err fault) × (self.new ≡ self.old) × (source.new ≡ source.old) }

        // The bytes that waited and those that were read now begin with the bytes in `out`, unless the input ended.
        ensures given { self.old.failed ≡ None → is_line_due self.old out.old ≡ false →
            GivesBody (S.left source.old) (S.left source.new) self.old self.new out.new result }

        // Where a chunk line is due, they go on with the next chunk or the end of the body.
        ensures chunk { self.old.failed ≡ None → is_line_due self.old out.old ≡ true →
            GivesChunk (S.left source.old) (S.left source.new) self.old self.new out.new result }

        // So whatever follows, the bytes of all calls are the body that the grammar says, however the input is cut.
        ensures grammar { self.old.failed ≡ None →
            ReadsBody (S.left source.old) (S.left source.new) self.old self.new out.new result }

        ensures state { MatchResult result (λ count. self.new.failed ≡ None) (λ fault. self.new.failed ≡ Some fault) }

        // 0 where there is room for a byte: the body was given whole.
        ensures whole { result ≡ Ok 0 → 0 < length out.old → IsWhole self.new }

        ensures cause { HasFaultCause self.old.failed (S.faults source.old) (S.faults source.new) result }
    {
        if let Some(fault) = self.failed {
            return Err(fault);
        }
        if self.is_line_due(out) {
            return self.give_chunk(source, out);
        }
        self.give_bytes(source, out)
    }

    fn is_line_due(&self, out: &[u8]) -> bool
        ensures { result ≡ is_line_due self.now out.now }
    {
        self.chunked && self.body_left == 0 && !out.is_empty()
    }

    /// Opens the next chunk, and answers its size; 0 at the end of the body, whose trailers are read.
    fn open_next<S: Source>(&mut self, source: &mut S) -> Result<u64, IntakeFault>
        ensures opens { OpensBody (S.left source.old) (S.left source.new) self.old self.new result }
        ensures state { MatchResult result (λ size. self.new.failed ≡ self.old.failed) (λ fault. self.new.failed ≡ Some fault) }
        ensures cause { CountsFaults (S.faults source.old) (S.faults source.new) result }
    {
        match take_chunk(&mut self.buffer, source, self.behind, self.room) {
            Ok(0) => {
                self.chunked = false;
                Ok(0)
            }
            Ok(size) => {
                self.body_left = size;
                self.behind = true;
                self.room -= size;
                Ok(size)
            }
            Err(fault) => Err(self.fail(fault)),
        }
    }

    /// Opens the next chunk, and gives its first bytes.
    fn give_chunk<S: Source>(
        &mut self,
        source: &mut S,
        out: &mut [u8],
    ) -> Result<usize, IntakeFault>
        requires { self.old.failed ≡ None }
        ensures given { GivesChunk (S.left source.old) (S.left source.new) self.old self.new out.new result }
        ensures fault { KeepsFault (S.faults source.old) (S.faults source.new) self.new.failed result }
    {
        match self.open_next(source) {
            Ok(0) => Ok(0),
            Ok(_) => self.give_bytes(source, out),
            Err(fault) => Err(fault),
        }
    }

    /// Gives the next bytes of a body by its length, or of the present chunk.
    fn give_bytes<S: Source>(
        &mut self,
        source: &mut S,
        out: &mut [u8],
    ) -> Result<usize, IntakeFault>
        requires { self.old.failed ≡ None }
        ensures given { GivesBody (S.left source.old) (S.left source.new) self.old self.new out.new result }
        ensures fault { KeepsFault (S.faults source.old) (S.faults source.new) self.new.failed result }
    {
        let due = self.body_left.min(out.len() as u64) as usize;
        if due == 0 {
            return Ok(0);
        }
        match take_bytes(&mut self.buffer, source, &mut out[..due]) {
            Ok(count) => {
                self.body_left -= count as u64;
                Ok(count)
            }
            Err(fault) => Err(self.fail(fault)),
        }
    }

    /// Keeps the fault for the calls that follow.
    fn fail(&mut self, fault: IntakeFault) -> IntakeFault
        ensures kept { self.new ≡ record self.old { failed = Some fault } }
        ensures same { result ≡ fault }
    {
        self.failed = Some(fault);
        fault
    }
}
