ghost use Rattle.std.specs.Prelude.{◌≡◌, length, take, drop, option_copied};
ghost use Rattle.task_get.specs.Pieces.{piece_bytes};

use rgw_types::Bytes;
use std::marker::Model;

/// Some of the bytes that a read was answered, in a row. Contracts see it as the list of these.
#[derive(Drop)]
pub struct Piece {
    bytes: Bytes,
    start: usize,
    count: usize,
}

impl Model for Piece {
    ghost use Rattle.std.specs.Prelude.{ℕ, ◌+◌, ◌≤◌, List, length, take, drop};

    ghost Value = { List ℕ };

    ghost view = { λ piece. take piece.count (drop piece.start piece.bytes) };

    ghost invariant = { λ piece. piece.start + piece.count ≤ length piece.bytes };
}

impl Piece {
    /// At most `count` bytes from `start` on, as far as there are such. No byte is copied.
    pub fn cut(bytes: Bytes, start: u64, count: u64) -> Piece
        ensures { result ≡ take count (drop start bytes) }
    {
        let length = bytes.len();
        let start = start.min(length as u64) as usize;
        let count = count.min((length - start) as u64) as usize;
        Piece {
            bytes,
            start,
            count,
        }
    }

    /// How many bytes it has.
    pub fn len(&self) -> usize
        ensures { result ≡ length self.now }
    {
        self.count
    }

    /// The bytes, lent.
    pub fn as_slice(&self) -> &[u8]
        ensures { result.now ≡ self.now }
    {
        &self.bytes.as_slice()[self.start..self.start + self.count]
    }
}

/// The bytes of a piece, lent; none where there is no piece.
pub fn bytes_of(piece: Option<&Piece>) -> &[u8]
    ensures { result.now ≡ piece_bytes (option_copied piece.entry) }
{
    match piece {
        Some(piece) => piece.as_slice(),
        None => &[],
    }
}
