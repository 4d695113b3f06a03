ghost use Rattle.std.specs.Prelude.{◌≡◌, ◌≢◌, ◌∷◌, ℕ, List, IfSome, IfNone};
ghost use Rattle.http_chunks.specs.Chunks.{SaysSize, SaysOpening, opening_limit};

use httparse::{Status, parse_chunk_size};

/// The longest chunk line in bytes, with its line end.
pub const LINE_LIMIT: usize = 256;

/// The bytes of the line end behind the bytes of a chunk.
pub const BREAK_LEN: usize = 2;

/// The longest text that opens a chunk: behind the bytes of a chunk the line end of these comes
/// first.
pub fn opening_limit(behind: bool) -> usize
    ensures { result ≡ opening_limit behind }
{
    if behind {
        BREAK_LEN + LINE_LIMIT
    } else {
        LINE_LIMIT
    }
}

/// The size that a chunk line says, all of it (RFC 9112, section 7.1).
fn read_size(line: &[u8]) -> Option<u64>
    ensures size { IfSome result (SaysSize line.now) }
    ensures none { IfNone result ((size : ℕ) → ¬ (SaysSize line.now size)) }
{
    match parse_chunk_size(line) {
        Ok(Status::Complete((len, size))) => {
            if len == line.len() {
                return Some(size);
            }
            None
        }
        Ok(Status::Partial) | Err(_) => None,
    }
}

/// What stands behind a line end at the front, CR LF.
fn behind_break(text: &[u8]) -> Option<&[u8]>
    ensures found { IfSome result (λ line. text.now ≡ 13 ∷ 10 ∷ line.now) }
    ensures none { IfNone result ((line : List ℕ) → text.now ≢ 13 ∷ 10 ∷ line) }
{
    match text {
        [b'\r', b'\n', line @ ..] => Some(line),
        _ => None,
    }
}

/// The size of the chunk that a text opens, all of it. Behind the bytes of a chunk it begins with
/// their line end, CR LF.
pub fn read_opening(behind: bool, text: &[u8]) -> Option<u64>
    ensures size { IfSome result (SaysOpening behind text.now) }
    ensures none { IfNone result ((size : ℕ) → ¬ (SaysOpening behind text.now size)) }
{
    if !behind {
        return read_size(text);
    }
    match behind_break(text) {
        Some(line) => read_size(line),
        None => None,
    }
}
