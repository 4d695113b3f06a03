// The next head of a connection, from the bytes that wait in the buffer and those that are read on.
ghost use Rattle.std.specs.Io.KnownBytes.{IsAtEnd};
ghost use Rattle.http_intake.specs.Faults.{CountsFaults};
ghost use Rattle.http_intake.specs.Reading.{Reads, FindsText, TakesHead};

use crate::IntakeFault;
use crate::buffer::Buffer;
use crate::heads::read_head;
use crate::scan::scan_head;
use gw_io::Source;
use http_chunks::{Place, TextEnd};
use http_model::{HEAD_LIMIT, Head};
use std::alloc::Global;

/// Reads on until the text of a head is there, and answers its length; none where the input ends and
/// only empty lines came.
fn find_text<S: Source>(buffer: &mut Buffer, source: &mut S) -> Result<Option<usize>, IntakeFault>
    ensures read { Reads (S.left source.old) (S.left source.new) buffer.old buffer.new }
    ensures found { FindsText buffer.new (IsAtEnd (S.left source.new)) result }
    ensures cause { CountsFaults (S.faults source.old) (S.faults source.new) result }
{
    let mut place = Place::Before;
    let mut seen = 0;
    'pieces: loop {
        let bytes = buffer.as_slice();
        let front = &bytes[..bytes.len().min(HEAD_LIMIT)];
        match scan_head(place, front, seen) {
            TextEnd::Here(len) => return Ok(Some(len)),
            TextEnd::Later(next) => place = next,
        }
        seen = front.len();
        if seen < bytes.len() {
            return Err(IntakeFault::HeadTooLarge);
        }
        if buffer.fill(source)? == 0 {
            return match place {
                Place::Before => Ok(None),
                Place::Inside | Place::Fresh | Place::Return | Place::Behind | Place::Line => {
                    Err(IntakeFault::Cut)
                }
            };
        }
    }
}

/// Takes the next head from the buffer, and reads on as long as it is not there; none where the
/// input ends and only empty lines came, which stay in the buffer.
pub(crate) fn take_head<S: Source>(
    alloc: Global,
    buffer: &mut Buffer,
    source: &mut S,
) -> Result<Option<Head>, IntakeFault>
    ensures head { TakesHead (S.left source.old) (S.left source.new) buffer.old buffer.new result }
    ensures cause { CountsFaults (S.faults source.old) (S.faults source.new) result }
{
    match find_text(buffer, source)? {
        None => Ok(None),
        Some(len) => {
            let head = read_head(alloc, &buffer.as_slice()[..len])?;
            buffer.consume(len);
            Ok(Some(head))
        }
    }
}
