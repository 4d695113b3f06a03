ghost use Rattle.std.specs.Prelude.{IfOk};
ghost use Rattle.http_chunks.specs.Chunks.{IsChunkedBody};
ghost use Rattle.http_chunks.specs.Steps.{FindsText, IsOpeningOf, IsStepOf};

use crate::{Place, TRAILER_LIMIT, TextEnd, are_trailers, opening_limit, read_opening, scan};
use rgw_types::Bytes;
use std::alloc::{AllocError, Global};

/// How a body in chunks ends.
#[derive(Clone, Copy, Debug, PartialEq, Eq)]
pub enum BodyEnd {
    /// With its last chunk and its trailers.
    Whole,
    /// The bytes end inside it.
    Cut,
    /// What follows is no chunk, or no trailers follow the last one.
    BadChunk,
    /// The next chunk would make it larger than it may be.
    TooLarge,
}

/// A body in chunks that was at hand.
#[derive(Debug, Drop)]
pub struct ChunkedBody<'a> {
    /// What its whole chunks hold.
    pub content: Bytes,
    pub end: BodyEnd,
    /// What follows a whole body; else the bytes from the chunk on that does not go on.
    pub rest: &'a [u8],
}

/// The text at the front of bytes.
#[derive(Clone, Copy)]
enum TextAt<'a> {
    /// It, and what follows it.
    Text(&'a [u8], &'a [u8]),
    /// None ends within its limit, and more is there.
    Long,
    /// None ends in the bytes.
    Open,
}

/// What opens a chunk at the front of bytes.
#[derive(Clone, Copy)]
enum Opening<'a> {
    /// The size, and what follows.
    Size(u64, &'a [u8]),
    Ended(BodyEnd),
}

/// What stands at the front of bytes.
#[derive(Clone, Copy)]
enum Step<'a> {
    /// The content of a chunk, and what follows it.
    Chunk(&'a [u8], &'a [u8]),
    /// The body is over, and this follows.
    Over(BodyEnd, &'a [u8]),
}

fn text_at(place: Place, limit: usize, bytes: &[u8]) -> TextAt<'_>
    ensures { FindsText place limit bytes.now result }
{
    let front = &bytes[..limit.min(bytes.len())];
    match scan(place, front, 0) {
        TextEnd::Here(len) => {
            let (text, rest) = bytes.split_at(len);
            TextAt::Text(text, rest)
        }
        TextEnd::Later(_) => {
            if limit < bytes.len() {
                TextAt::Long
            } else {
                TextAt::Open
            }
        }
    }
}

fn open_chunk(behind: bool, room: u64, bytes: &[u8]) -> Opening<'_>
    ensures { IsOpeningOf behind room bytes.now result }
{
    match text_at(Place::opening(behind), opening_limit(behind), bytes) {
        TextAt::Long => Opening::Ended(BodyEnd::BadChunk),
        TextAt::Open => Opening::Ended(BodyEnd::Cut),
        TextAt::Text(text, rest) => match read_opening(behind, text) {
            None => Opening::Ended(BodyEnd::BadChunk),
            Some(size) => {
                if size > room {
                    Opening::Ended(BodyEnd::TooLarge)
                } else {
                    Opening::Size(size, rest)
                }
            }
        },
    }
}

/// What stands at the front of bytes: a chunk, behind another or not, or the end of the body.
fn next_step(behind: bool, room: u64, bytes: &[u8]) -> Step<'_>
    ensures { IsStepOf behind room bytes.now result }
{
    match open_chunk(behind, room, bytes) {
        Opening::Ended(end) => Step::Over(end, bytes),
        Opening::Size(size, after) => {
            if size > 0 {
                if (after.len() as u64) < size {
                    return Step::Over(BodyEnd::Cut, bytes);
                }
                let (content, next) = after.split_at(size as usize);
                return Step::Chunk(content, next);
            }
            match text_at(Place::Fresh, TRAILER_LIMIT, after) {
                TextAt::Long => Step::Over(BodyEnd::BadChunk, bytes),
                TextAt::Open => Step::Over(BodyEnd::Cut, bytes),
                TextAt::Text(text, rest) => {
                    if are_trailers(text) {
                        Step::Over(BodyEnd::Whole, rest)
                    } else {
                        Step::Over(BodyEnd::BadChunk, bytes)
                    }
                }
            }
        }
    }
}

/// Reads a body in chunks of at most `largest` bytes together, all of which is at hand: its content,
/// and how it ends (RFC 9112, section 7.1). Chunk extensions and trailers are read and dropped.
pub fn read_chunked<'a>(
    alloc: Global,
    bytes: &'a [u8],
    largest: u64,
) -> Result<ChunkedBody<'a>, AllocError>
    ensures { IfOk result (λ body. IsChunkedBody largest bytes.now body.content body.end body.rest.now) }
{
    let mut content = Bytes::new(alloc);
    let mut rest = bytes;
    let mut room = largest;
    let mut behind = false;
    'chunks: loop {
        match next_step(behind, room, rest) {
            Step::Over(end, rest) => return Ok(ChunkedBody { content, end, rest }),
            Step::Chunk(chunk, next) => {
                content.extend(chunk)?;
                room -= chunk.len() as u64;
                rest = next;
                behind = true;
            }
        }
    }
}
