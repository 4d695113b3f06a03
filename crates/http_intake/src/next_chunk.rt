// What opens the next chunk of a body, or ends the body, from the bytes that wait in the buffer and
// those that are read on.
ghost use Rattle.std.specs.Prelude.{◌<◌, ◌≤◌, IfOk};
ghost use Rattle.std.specs.Io.KnownBytes.{IsAtEnd};
ghost use Rattle.http_intake.specs.Faults.{CountsFaults};
ghost use Rattle.http_intake.specs.Reading.{Reads};
ghost use Rattle.http_intake.specs.Chunks.{FindsTextFrom, TakesOpening, TakesTrailers, TakesChunk};

use crate::IntakeFault;
use crate::buffer::{Buffer, CAPACITY};
use gw_io::Source;
use http_chunks::{Place, TRAILER_LIMIT, TextEnd, are_trailers, opening_limit, read_opening, scan};

/// Reads on until the text that begins at this place is there, and answers its length; none where
/// more bytes came than it may have.
fn find_end<S: Source>(
    buffer: &mut Buffer,
    source: &mut S,
    start: Place,
    limit: usize,
) -> Result<Option<usize>, IntakeFault>
    requires { limit < CAPACITY }
    ensures read { Reads (S.left source.old) (S.left source.new) buffer.old buffer.new }
    ensures found { FindsTextFrom start limit buffer.new (IsAtEnd (S.left source.new)) result }
    ensures cause { CountsFaults (S.faults source.old) (S.faults source.new) result }
{
    let mut place = start;
    let mut seen = 0;
    'pieces: loop {
        let bytes = buffer.as_slice();
        let front = &bytes[..bytes.len().min(limit)];
        match scan(place, front, seen) {
            TextEnd::Here(len) => return Ok(Some(len)),
            TextEnd::Later(next) => place = next,
        }
        seen = front.len();
        if seen < bytes.len() {
            return Ok(None);
        }
        if buffer.fill(source)? == 0 {
            return Err(IntakeFault::Cut);
        }
    }
}

/// Takes the text that opens a chunk from the buffer, and answers the size.
fn take_opening<S: Source>(
    buffer: &mut Buffer,
    source: &mut S,
    behind: bool,
    room: u64,
) -> Result<u64, IntakeFault>
    ensures opening { TakesOpening behind room (S.left source.old) (S.left source.new) buffer.old buffer.new result }
    ensures cause { CountsFaults (S.faults source.old) (S.faults source.new) result }
{
    match find_end(
        buffer,
        source,
        Place::opening(behind),
        opening_limit(behind),
    )? {
        None => Err(IntakeFault::BadChunk),
        Some(len) => match read_opening(behind, &buffer.as_slice()[..len]) {
            None => Err(IntakeFault::BadChunk),
            Some(size) => {
                if size > room {
                    return Err(IntakeFault::BodyTooLarge);
                }
                buffer.consume(len);
                Ok(size)
            }
        },
    }
}

/// Takes the trailers behind the last chunk from the buffer.
fn take_trailers<S: Source>(buffer: &mut Buffer, source: &mut S) -> Result<(), IntakeFault>
    ensures trailers { TakesTrailers (S.left source.old) (S.left source.new) buffer.old buffer.new result }
    ensures cause { CountsFaults (S.faults source.old) (S.faults source.new) result }
{
    match find_end(buffer, source, Place::Fresh, TRAILER_LIMIT)? {
        None => Err(IntakeFault::BadChunk),
        Some(len) => {
            if !are_trailers(&buffer.as_slice()[..len]) {
                return Err(IntakeFault::BadChunk);
            }
            buffer.consume(len);
            Ok(())
        }
    }
}

/// Takes what opens the next chunk, and answers its size; 0 where it is the last, whose trailers are
/// taken with it.
pub(crate) fn take_chunk<S: Source>(
    buffer: &mut Buffer,
    source: &mut S,
    behind: bool,
    room: u64,
) -> Result<u64, IntakeFault>
    ensures fits { IfOk result (λ size. size ≤ room) }
    ensures chunk { TakesChunk behind room (S.left source.old) (S.left source.new) buffer.old buffer.new result }
    ensures cause { CountsFaults (S.faults source.old) (S.faults source.new) result }
{
    match take_opening(buffer, source, behind, room) {
        Ok(0) => match take_trailers(buffer, source) {
            Ok(()) => Ok(0),
            Err(fault) => Err(fault),
        },
        Ok(size) => Ok(size),
        Err(fault) => Err(fault),
    }
}
