// The bytes that were read and not yet given out.
ghost use Rattle.std.specs.Prelude.{◌≡◌, ◌+◌, ◌-◌, ◌<◌, ◌≤◌, [], ◌==◌, length, take, drop, min, slice_range, IfOk, OnErr};
ghost use Rattle.std.specs.Io.KnownBytes.{Consumes, IsAtEnd, Keeps};
ghost use Rattle.gw_io.specs.Outside.{HasCause};
ghost use Rattle.http_intake.specs.Reading.{Reads};

use gw_io::{Failed, Source, copy_front};
use http_model::HEAD_LIMIT;
use std::alloc::{AllocError, Global};
use std::marker::Model;

/// How many bytes a buffer can hold. Bytes are moved to the front only where no room is behind
/// them, and no more than `HEAD_LIMIT` wait then for the rest of a head. So as many went before
/// them, and a byte is moved once at most.
pub(crate) const CAPACITY: usize = 2 * (HEAD_LIMIT + 1);

/// Makes room behind the bytes from `start` to `end`, and answers where they are then.
fn make_room(bytes: &mut [u8], start: usize, end: usize) -> (usize, usize)
    requires ordered { start ≤ end }
    requires within { end ≤ length bytes.old }
    requires some_room { end - start < length bytes.old }
    ensures kept { slice_range bytes.new result.0 result.1 ≡ slice_range bytes.old start end }
    ensures ordered { result.0 ≤ result.1 }
    ensures room { result.1 < length bytes.new }
{
    if start == end {
        return (0, 0);
    }
    if end < bytes.len() {
        return (start, end);
    }
    bytes.copy_within(start..end, 0);
    (0, end - start)
}

/// Reads once, to where `end` is.
fn read_behind<S: Source>(source: &mut S, bytes: &mut [u8], end: usize) -> Result<usize, Failed>
    requires { end < length bytes.old }
    ensures front { take end bytes.new ≡ take end bytes.old }
    ensures within { IfOk result (λ n. end + n ≤ length bytes.new) }
    ensures read { IfOk result (λ n. Consumes (S.left source.old) (S.left source.new) (take n (drop end bytes.new))) }
    ensures end { result ≡ Ok 0 → IsAtEnd (S.left source.new) }
    ensures err { OnErr result (Keeps (S.left source.old) (S.left source.new)) }
    ensures cause { HasCause (S.faults source.old) (S.faults source.new) result }
{
    source.read(&mut bytes[end..])
}

/// Contracts see the bytes that it holds.
#[derive(Debug, Drop)]
pub(crate) struct Buffer {
    bytes: Vec<u8>,
    start: usize,
    end: usize,
}

impl Model for Buffer {
    ghost use Rattle.std.specs.Prelude.{◌≡◌, ◌≤◌, ℕ, List, length, slice_range};
    ghost use Rattle.http_intake.specs.declared.buffer.TheConstants.{CAPACITY};

    ghost Value = { List ℕ };

    ghost view = { λ buffer. slice_range buffer.bytes.items buffer.start buffer.end };

    ghost invariant = { λ buffer. (buffer.start ≤ buffer.end) × (buffer.end ≤ CAPACITY) × (length buffer.bytes.items ≡ CAPACITY) };
}

impl Buffer {
    pub(crate) fn new(alloc: Global) -> Result<Self, AllocError>
        ensures { IfOk result (λ buffer. buffer ≡ []) }
    {
        Ok(Buffer {
            bytes: vec![in alloc; 0; CAPACITY]?,
            start: 0,
            end: 0,
        })
    }

    pub(crate) fn as_slice(&self) -> &[u8]
        ensures { result.now ≡ self.now }
    {
        &self.bytes[self.start..self.end]
    }

    pub(crate) fn is_empty(&self) -> bool
        ensures { result ≡ (length self.now == 0) }
    {
        self.start == self.end
    }

    /// Gives the first bytes up.
    pub(crate) fn consume(&mut self, count: usize)
        requires { count ≤ length self.old }
        ensures { self.new ≡ drop count self.old }
    {
        self.start += count;
    }

    /// Moves the first bytes to the front of `out`, as many as there are and fit.
    pub(crate) fn move_to(&mut self, out: &mut [u8]) -> usize
        ensures count { result ≡ min (length out.old) (length self.old) }
        ensures moved { self.new ≡ drop result self.old }
        ensures copied { take result out.new ≡ take result self.old }
    {
        let count = copy_front(self.as_slice(), out);
        self.consume(count);
        count
    }

    /// Reads once, to the end of the bytes. After an error nothing has changed.
    pub(crate) fn fill<S: Source>(&mut self, source: &mut S) -> Result<usize, Failed>
        requires { length self.old < CAPACITY }
        ensures read { IfOk result (λ n. Reads (S.left source.old) (S.left source.new) self.old self.new) }
        ensures count { IfOk result (λ n. length self.new ≡ length self.old + n) }
        ensures end { result ≡ Ok 0 → IsAtEnd (S.left source.new) }
        ensures err { OnErr result ((self.new ≡ self.old) × Keeps (S.left source.old) (S.left source.new)) }
        ensures cause { HasCause (S.faults source.old) (S.faults source.new) result }
    {
        let bytes = self.bytes.as_mut_slice();
        let (start, end) = make_room(bytes, self.start, self.end);
        let read = read_behind(source, bytes, end);
        self.start = start;
        self.end = end;
        let count = read?;
        self.end += count;
        Ok(count)
    }
}
