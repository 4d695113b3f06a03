//! The bytes of a request's body, as they come.
ghost use Rattle.std.specs.Prelude.{◌≡◌, ◌<◌, length, take, IfOk, IfErr, None};
ghost use Rattle.call_service.specs.Bodies.{GivesPiece, CountsPiece, DropsBody, LeavesBody, ReadsAtFault};

use crate::ServeFault;
use gw_io::Source;
use http_chunks::BodyEnd;
use http_intake::{Intake, IntakeFault};

/// What a call for the next bytes of a body comes to.
#[derive(Clone, Copy)]
pub enum Piece {
    /// So many bytes, at the front of the buffer.
    Bytes(usize),
    /// The body was given whole, the input ended inside it, or its chunks went wrong.
    Ended(BodyEnd),
    /// A read failed.
    Failed,
}

/// Reads the next bytes of the present body to the front of a buffer.
#[tactic(auto, using(crate::proofs::Passing::has_given, crate::proofs::Passing::has_given_all, crate::proofs::Passing::fails_in, crate::proofs::Passing::bad_chunk_in, crate::proofs::Passing::too_large_in))]
pub fn next_piece<S: Source>(intake: &mut Intake, source: &mut S, buffer: &mut [u8]) -> Piece
    requires room { 0 < length buffer.old }
    requires sound { intake.old.failed ≡ None }
    ensures passed { GivesPiece intake.old intake.new (S.left source.old) (S.left source.new) buffer.new result }
    ensures cause { CountsPiece (S.faults source.old) (S.faults source.new) result }
    ensures kept { length buffer.new ≡ length buffer.old }
{
    match intake.body(source, buffer) {
        Ok(0) => Piece::Ended(BodyEnd::Whole),
        Ok(count) => Piece::Bytes(count),
        Err(IntakeFault::Cut) => Piece::Ended(BodyEnd::Cut),
        Err(IntakeFault::BadChunk) => Piece::Ended(BodyEnd::BadChunk),
        Err(IntakeFault::BodyTooLarge) => Piece::Ended(BodyEnd::TooLarge),
        Err(_) => Piece::Failed,
    }
}

/// Reads the rest of the present body and drops it, and says how it ended.
pub fn drop_body<S: Source>(
    intake: &mut Intake,
    source: &mut S,
    buffer: &mut [u8],
) -> Result<BodyEnd, ServeFault>
    requires room { 0 < length buffer.old }
    requires sound { intake.old.failed ≡ None }
    ensures dropped { IfOk result (DropsBody intake.old intake.new (S.left source.old) (S.left source.new)) }
    ensures err { IfErr result (LeavesBody intake.old (S.left source.old) (S.left source.new)) }
    ensures cause { ReadsAtFault (S.faults source.old) (S.faults source.new) result }
    ensures kept { length buffer.new ≡ length buffer.old }
{
    'pieces: loop {
        match next_piece(intake, source, buffer) {
            Piece::Bytes(_) => {}
            Piece::Ended(end) => return Ok(end),
            Piece::Failed => return Err(ServeFault::ReadFault),
        }
    }
}
