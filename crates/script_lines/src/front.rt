// The line that is read so far, in the bytes at hand and those of further reads.
ghost use Rattle.std.specs.Prelude.{◌≡◌, ◌++◌, ◌≤◌, length};
ghost use Rattle.script_lines.specs.Faults.{CountsFaults};
ghost use Rattle.script_lines.specs.Fronts.{IsLineEnd, TakesFront, ReadsFront};
ghost use Rattle.script_lines.specs.Lines.{IsUnbroken};

use crate::piece::Piece;
use crate::{INPUT_LIMIT, LINE_LIMIT, LineFault};
use gw_io::Source;
use memchr::memchr;
use std::alloc::AllocError;

/// What the bytes at hand come to.
#[derive(Clone, Copy)]
pub(crate) enum Front {
    /// A line, with its line feed.
    Line,
    /// A part of a line, or a last line without a line feed.
    Part,
    /// A line that is too long, or with which the input is.
    TooLong,
}

/// Where the first line feed stands.
fn line_end(bytes: &[u8]) -> Option<usize>
    ensures { IsLineEnd bytes.now result }
{
    memchr(b'\n', bytes)
}

/// Moves the bytes up to the first line feed from the piece to the line, and drops the line feed. A line
/// that is too long is left where it is, and so is one for which memory is wanting.
fn take_front(line: &mut Vec<u8>, piece: &mut Piece, given: u64) -> Result<Front, AllocError>
    requires one { IsUnbroken line.old.items }
    requires short { length line.old.items ≤ LINE_LIMIT }
    requires within { given ≤ INPUT_LIMIT }
    ensures { TakesFront given (line.old.items ++ piece.old) line.new.items piece.new result }
{
    let bytes = piece.as_slice();
    let end = line_end(bytes);
    let count = end.unwrap_or(bytes.len());
    let len = line.len() + count;
    let passed = given + len as u64 + u64::from(end.is_some());
    if len > LINE_LIMIT || passed > INPUT_LIMIT {
        return Ok(Front::TooLong);
    }
    line.extend_from_slice(&bytes[..count])?;
    if end.is_none() {
        piece.consume(count);
        return Ok(Front::Part);
    }
    piece.consume(count + 1);
    Ok(Front::Line)
}

/// Reads on until a line is there. `Part` where the input ended: then what came is a last line without
/// a line feed, unless it is empty.
pub(crate) fn find_front<S: Source>(
    line: &mut Vec<u8>,
    piece: &mut Piece,
    given: u64,
    source: &mut S,
) -> Result<Front, LineFault>
    requires one { IsUnbroken line.old.items }
    requires short { length line.old.items ≤ LINE_LIMIT }
    requires within { given ≤ INPUT_LIMIT }
    ensures found { ReadsFront (S.left source.old) (S.left source.new) given (line.old.items ++ piece.old)
        line.new.items piece.new result }
    ensures unread { ¬ (IsUnbroken (line.old.items ++ piece.old)) → source.new ≡ source.old }
    ensures cause { CountsFaults (S.faults source.old) (S.faults source.new) result }
{
    'pieces: loop {
        match take_front(line, piece, given)? {
            Front::Part => {}
            front => return Ok(front),
        }
        if piece.refill(source)? == 0 {
            return Ok(Front::Part);
        }
    }
}
