// Sinks in memory.
ghost use Rattle.std.specs.Prelude.{◌≡◌, ◌⊎◌, ◌+◌, ◌-◌, ◌^◌, ◌<◌, ◌≤◌, [], ◌++◌, IfOk, OnErr, Contains, IsErr, Some, length, min, take, vec_capacity};
ghost use Rattle.gw_io.specs.Outside.{Writes, raised};

use crate::{Failed, Sink};
use rgw_types::Trace;
use std::alloc::{AllocError, Global};
use std::marker::Model;

/// Counts the bytes that it takes and keeps no other trace of them, so it needs no memory and never
/// fails. Contracts see the bytes all the same.
#[derive(Debug, Drop)]
pub struct CountingSink {
    count: u64,
    taken: Trace,
}

/// Contracts see the bytes that were taken.
impl Model for CountingSink {
    ghost use Rattle.std.specs.Prelude.{◌≡◌, ℕ, ◌-◌, ◌^◌, List, length, min};

    ghost Value = { List ℕ };

    ghost view = { λ s. s.taken.numbers };

    ghost invariant = { λ s. s.count ≡ min (length s.taken.numbers) (2 ^ 64 - 1) };
}

impl CountingSink {
    /// A sink that has taken nothing.
    pub fn new() -> Self
        ensures { result ≡ [] }
    {
        CountingSink {
            count: 0,
            taken: Trace::new(),
        }
    }

    /// How many bytes were taken, up to the greatest `u64`.
    pub fn count(&self) -> u64
        ensures { result ≡ min (length self.now) (2 ^ 64 - 1) }
    {
        self.count
    }
}

impl Default for CountingSink {
    ghost use Rattle.std.specs.Prelude.{◌≡◌, []};

    ghost is_default = { λ s. s ≡ [] };

    fn default() -> Self {
        CountingSink::new()
    }
}

impl Sink for CountingSink {
    ghost taken = { λ s. Some s };

    ghost faults = { λ _. 0 };

    fn write(&mut self, bytes: &[u8]) -> Result<usize, Failed>
        ensures written { Writes (Some self.old) (Some self.new) 0 0 result bytes.now }

        ensures whole { result ≡ Ok (length bytes.now) }
        ensures taken { self.new ≡ self.old ++ bytes.now }
    {
        self.count = self.count.saturating_add(bytes.len() as u64);
        self.taken = self.taken.with_bytes(bytes);
        Ok(bytes.len())
    }
}

/// Keeps the bytes that it takes, takes them in pieces, and fails at the calls that it is told to.
/// A write for which there is no memory fails too.
#[derive(Debug, Drop)]
pub struct VecSink<'a> {
    bytes: Vec<u8>,
    piece: usize,
    failing: &'a [u64],
    calls: u64,
    faults: u64,
}

/// Contracts see the bytes that were taken, how many there is room for, the greatest piece, the
/// numbers of the calls that fail, how many calls there were and how many of them failed.
impl<'a> Model for VecSink<'a> {
    ghost use Rattle.std.specs.Prelude.{◌≤◌, vec_capacity};
    ghost use Rattle.gw_io.specs.Memory.{VecState};

    ghost Value = { VecState };

    ghost view = { λ s. record {
      taken = s.bytes.items;
      capacity = vec_capacity s.bytes;
      piece = s.piece;
      failing = s.failing.now;
      calls = s.calls;
      faults = s.faults;
    } };

    ghost invariant = { λ s. 1 ≤ s.piece };
}

impl<'a> VecSink<'a> {
    /// A sink that has taken nothing. A call takes at most `piece` bytes, and the calls with the
    /// numbers in `failing` fail, where the first call has the number 0. The number of a call stands
    /// still at the greatest `u64`.
    pub fn new(alloc: Global, piece: usize, failing: &'a [u64]) -> Self
        requires { 1 ≤ piece }
        ensures { result ≡ record {
          taken = [];
          capacity = result.capacity;
          piece = piece;
          failing = failing.now;
          calls = 0;
          faults = 0;
        } }
    {
        VecSink::over(Vec::new(alloc), piece, failing)
    }

    /// The same with room for so many bytes: until they are taken, no write fails for want of memory.
    pub fn with_capacity(
        alloc: Global,
        capacity: usize,
        piece: usize,
        failing: &'a [u64],
    ) -> Result<Self, AllocError>
        requires { 1 ≤ piece }
        ensures { IfOk result (λ sink. sink ≡ record {
          taken = [];
          capacity = capacity;
          piece = piece;
          failing = failing.now;
          calls = 0;
          faults = 0;
        }) }
    {
        let bytes = Vec::with_capacity(alloc, capacity)?;
        Ok(VecSink::over(bytes, piece, failing))
    }

    fn over(bytes: Vec<u8>, piece: usize, failing: &'a [u64]) -> Self
        requires { 1 ≤ piece }
        ensures { result ≡ record {
          taken = bytes.items;
          capacity = vec_capacity bytes;
          piece = piece;
          failing = failing.now;
          calls = 0;
          faults = 0;
        } }
    {
        VecSink {
            bytes,
            piece,
            failing,
            calls: 0,
            faults: 0,
        }
    }

    /// The bytes that were taken.
    pub fn bytes(&self) -> &[u8]
        ensures { result.now ≡ self.now.taken }
    {
        &self.bytes
    }

    /// The bytes that were taken.
    pub fn into_bytes(self) -> Vec<u8>
        ensures { result.items ≡ self.entry.taken }
    {
        self.bytes
    }
}

impl Sink for VecSink<'_> {
    ghost taken = { λ s. Some s.taken };

    ghost faults = { λ s. s.faults };

    fn write(&mut self, bytes: &[u8]) -> Result<usize, Failed>
        ensures written { Writes (Some self.old.taken) (Some self.new.taken) self.old.faults self.new.faults result bytes.now }

        // The calls of the list fail, and no other but for want of memory.
        ensures fails { Contains self.old.failing self.old.calls → IsErr result }
        ensures only { OnErr result (Contains self.old.failing self.old.calls
            ⊎ (self.old.capacity < length self.old.taken + min (length bytes.now) self.old.piece)) }
        ensures failed { OnErr result (self.new ≡ record self.old {
          capacity = self.new.capacity;
          calls = raised self.old.calls;
          faults = raised self.old.faults;
        }) }

        ensures count { IfOk result (λ n. n ≡ min (length bytes.now) self.old.piece) }
        ensures taken { IfOk result (λ n. self.new ≡ record self.old {
          taken = self.old.taken ++ take n bytes.now;
          capacity = self.new.capacity;
          calls = raised self.old.calls;
        }) }
        ensures capacity { self.old.capacity ≤ self.new.capacity }
    {
        let call = self.calls;
        self.calls = call.saturating_add(1);
        let count = bytes.len().min(self.piece);
        if self.failing.contains(&call) || self.bytes.extend_from_slice(&bytes[..count]).is_err() {
            self.faults = self.faults.saturating_add(1);
            return Err(Failed);
        }
        Ok(count)
    }
}
