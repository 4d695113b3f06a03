// Sources in memory.
ghost use Rattle.std.specs.Prelude.{◌≡◌, ◌↔◌, ◌≤◌, ◌++◌, IfOk, OnErr, IsErr, Contains, Some, drop, length, min, take};
ghost use Rattle.gw_io.specs.Outside.{Reads, raised};

use crate::copying::copy_front;
use crate::{Failed, Source};
use std::marker::Model;

/// Gives the bytes of a slice, and never fails.
#[derive(Debug, Drop)]
pub struct WholeSource<'a> {
    bytes: &'a [u8],
}

/// Contracts see the bytes that are left.
impl<'a> Model for WholeSource<'a> {
    ghost use Rattle.std.specs.Prelude.{ℕ, List};

    ghost Value = { List ℕ };

    ghost view = { λ s. s.bytes.now };
}

impl<'a> WholeSource<'a> {
    /// A source of these bytes.
    pub fn new(bytes: &'a [u8]) -> Self
        ensures { result ≡ bytes.now }
    {
        WholeSource { bytes }
    }

    /// The bytes that are left.
    pub fn left(&self) -> &'a [u8]
        ensures { result.now ≡ self.now }
    {
        self.bytes
    }
}

impl Source for WholeSource<'_> {
    ghost left = { λ s. Some s };

    ghost faults = { λ _. 0 };

    /// Gives as many bytes as `buf` takes and the source has.
    fn read(&mut self, buf: &mut [u8]) -> Result<usize, Failed>
        ensures read { Reads (Some self.old) (Some self.new) 0 0 result buf.new }

        ensures count { result ≡ Ok (min (length buf.old) (length self.old)) }
        ensures copied { IfOk result (λ n. buf.new ≡ take n self.old ++ drop n buf.old) }
        ensures rest { IfOk result (λ n. self.new ≡ drop n self.old) }
    {
        let count = copy_front(self.bytes, buf);
        self.bytes = &self.bytes[count..];
        Ok(count)
    }
}

/// Gives the bytes of a slice in pieces, and fails at the calls that it is told to.
#[derive(Debug, Drop)]
pub struct SliceSource<'a> {
    bytes: &'a [u8],
    piece: usize,
    failing: &'a [u64],
    calls: u64,
    faults: u64,
}

/// Contracts see the bytes that are left, the greatest piece, the numbers of the calls that fail,
/// how many calls there were and how many of them failed.
impl<'a> Model for SliceSource<'a> {
    ghost use Rattle.std.specs.Prelude.{◌≤◌};
    ghost use Rattle.gw_io.specs.Memory.{SliceState};

    ghost Value = { SliceState };

    ghost view = { λ s. record {
      left = s.bytes.now;
      piece = s.piece;
      failing = s.failing.now;
      calls = s.calls;
      faults = s.faults;
    } };

    ghost invariant = { λ s. 1 ≤ s.piece };
}

impl<'a> SliceSource<'a> {
    /// A source of these bytes. A call gives at most `piece` of them, and the calls with the numbers
    /// in `failing` fail, where the first call has the number 0. The number of a call stands still
    /// at the greatest `u64`.
    pub fn new(bytes: &'a [u8], piece: usize, failing: &'a [u64]) -> Self
        requires { 1 ≤ piece }
        ensures { result ≡ record {
          left = bytes.now;
          piece = piece;
          failing = failing.now;
          calls = 0;
          faults = 0;
        } }
    {
        SliceSource {
            bytes,
            piece,
            failing,
            calls: 0,
            faults: 0,
        }
    }

    /// The bytes that are left.
    pub fn left(&self) -> &'a [u8]
        ensures { result.now ≡ self.now.left }
    {
        self.bytes
    }
}

impl Source for SliceSource<'_> {
    ghost left = { λ s. Some s.left };

    ghost faults = { λ s. s.faults };

    fn read(&mut self, buf: &mut [u8]) -> Result<usize, Failed>
        ensures read { Reads (Some self.old.left) (Some self.new.left) self.old.faults self.new.faults result buf.new }

        // Exactly the calls of the list fail, and a call that fails only counts itself.
        ensures fails { IsErr result ↔ Contains self.old.failing self.old.calls }
        ensures failed { OnErr result (self.new ≡ record self.old {
          calls = raised self.old.calls;
          faults = raised self.old.faults;
        }) }
        ensures untouched { OnErr result (buf.new ≡ buf.old) }

        ensures count { IfOk result (λ n.
            n ≡ min (length buf.old) (min self.old.piece (length self.old.left))) }
        ensures copied { IfOk result (λ n. buf.new ≡ take n self.old.left ++ drop n buf.old) }
        ensures rest { IfOk result (λ n. self.new ≡ record self.old {
          left = drop n self.old.left;
          calls = raised self.old.calls;
        }) }
    {
        let call = self.calls;
        self.calls = call.saturating_add(1);
        if self.failing.contains(&call) {
            self.faults = self.faults.saturating_add(1);
            return Err(Failed);
        }
        let piece = self.bytes.len().min(self.piece);
        let count = copy_front(&self.bytes[..piece], buf);
        self.bytes = &self.bytes[count..];
        Ok(count)
    }
}
