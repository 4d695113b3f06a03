ghost use Rattle.std.specs.Prelude.{◌≡◌, ◌+◌, ◌-◌, ◌*◌, ◌<◌, ◌≤◌, ◌↔◌, [], ◌∷◌, length, take, drop, replicate, Some, None, IsErr, IfOk, IfErr, OnOk, OnErr};
ghost use Rattle.frame_region.specs.Held.{links_in, bytes_in};
ghost use Rattle.frame_region.specs.Region.{Run, SuitsRegion, Owns, AddsRun, KeepsOthers, HasFrameSum, bytes_of, overwritten, with_run};

use crate::OutOfMemory;
use crate::cells::Cells;
use crate::run::FrameRun;
use std::alloc::Global;
use std::error::Error;
use std::fmt;
use std::marker::Model;

// No frame has this number: the last frame of a run is linked to it.
const NO_FRAME: u32 = u32::MAX;

/// Fewer frames are free than were asked for.
#[derive(Clone, Copy, Debug, PartialEq, Eq, Hash)]
pub struct NoFrames {
    /// How many frames are free.
    pub free: u32,
}

impl fmt::Display for NoFrames {
    ghost use Rattle.std.specs.Prelude.{◌++◌, Some, codes, decimal};

    ghost output = { λ e. Some (codes "too few free frames: " ++ decimal e.free) };

    fn fmt<W: fmt::Write>(&self, f: &mut fmt::Formatter<W>) -> fmt::Result {
        let free = self.free;
        write!(f, "too few free frames: {free}")
    }
}

impl Error for NoFrames {}

/// Frames of one size in a fixed block of memory, which are taken in runs and given back.
///
/// The frames of a run need not lie beside each other, so a run can be taken whenever enough frames are
/// free. Only `new` takes memory. To take and to give back costs a step for each frame of the run.
///
/// A holder of many runs keeps two facts: each run is the region's (`Owns`), and no two runs share a
/// frame (`Apart`). The run that `take` gives shares none with any other, and the clauses `others` carry
/// both facts, and the bytes of each run, over every call.
#[derive(Drop)]
pub struct Region {
    cells: Cells,
    // The first of the free frames, which are linked to each other.
    first_free: u32,
    free: u32,
}

impl Model for Region {
    ghost use Rattle.std.specs.Prelude.{length};
    ghost use Rattle.frame_region.specs.Region.{RegionView};
    ghost use Rattle.frame_region.specs.Links.{runs_of, IsSound};
    ghost use Rattle.frame_region.specs.Held.{links_in, bytes_in};

    ghost Value = { RegionView };

    ghost view = { λ r. record {
      frame = r.cells.frame;
      frames = length (links_in r.cells);
      free = r.free;
      runs = runs_of r.cells.frame (links_in r.cells) (bytes_in r.cells) r.first_free;
    } };

    ghost invariant = { λ r. IsSound r.cells.frame (links_in r.cells) (bytes_in r.cells) r.first_free r.free };
}

impl Region {
    /// A region of `frames` frames of `frame` bytes each, all of them free. It fails only for want of memory.
    pub fn new(alloc: Global, frames: u32, frame: u32) -> Result<Region, OutOfMemory>
        requires { SuitsRegion frames frame }
        ensures { IfOk result (λ region. region ≡ record { frame = frame; frames = frames; free = frames; runs = replicate frames None }) }
    {
        let cells = Cells::new(alloc, frames, frame)?;
        Ok(Region {
            cells,
            first_free: 0,
            free: frames,
        })
    }

    /// Takes `n` free frames, which need not lie beside each other, and makes their bytes 0. A run of no
    /// frames can always be taken.
    pub fn take(&mut self, n: u32) -> Result<FrameRun, NoFrames>
        // It fails exactly where fewer frames are free, and then nothing changes.
        ensures refused { IsErr result ↔ (self.old.free < n) }
        ensures told { IfErr result (λ e. e.free ≡ self.old.free) }
        ensures err { OnErr result (self.new ≡ self.old) }

        // The run has exactly `n` frames, each byte 0.
        ensures count { IfOk result (λ run. run.count ≡ n) }
        ensures owned { IfOk result (λ run. Owns self.new run) }
        ensures zero { IfOk result (λ run. bytes_of self.new run ≡ replicate (n * self.old.frame) 0) }

        // They were free before, and in no other run.
        ensures free { OnOk result (self.new.free + n ≡ self.old.free) }
        ensures others { IfOk result (λ run. AddsRun self.old self.new run) }
        ensures after { IfOk result (λ run. self.new ≡ with_run self.old run (Some (replicate (n * self.old.frame) 0)) (self.old.free - n)) }
        ensures sum { HasFrameSum self.new }
        ensures frame { self.new.frame ≡ self.old.frame }
        ensures frames { self.new.frames ≡ self.old.frames }
    {
        if self.free < n {
            return Err(NoFrames { free: self.free });
        }
        if n == 0 {
            return Ok(FrameRun {
                first: NO_FRAME,
                count: 0,
            });
        }
        let first = self.first_free;
        let last = self.cells.clear_path(first, n);
        self.first_free = self.cells.link(last);
        self.cells.set_link(last, NO_FRAME);
        self.free -= n;
        Ok(FrameRun { first, count: n })
    }

    /// The first byte of the run that begins at this frame. Where none does it is any byte.
    pub fn first_byte(&self, frame: u32) -> u8
        ensures { (run : Run) → Owns self.now run → run.first ≡ frame → 0 < run.count → result ∷ [] ≡ take 1 (bytes_of self.now run) }
    {
        if frame >= self.cells.count {
            return 0;
        }
        let mut first = [0u8; 1];
        self.cells.copy_out(frame, 0, &mut first);
        first[0]
    }

    /// Gives the frames of a run back, so that they are free again.
    pub fn give(&mut self, run: FrameRun)
        requires { Owns self.old run }

        // Exactly the frames of the run come back, and no other run changes.
        ensures free { self.new.free ≡ self.old.free + run.count }
        ensures others { KeepsOthers self.old self.new run }
        ensures after { self.new ≡ with_run self.old run None (self.old.free + run.count) }
        ensures sum { HasFrameSum self.new }
        ensures frame { self.new.frame ≡ self.old.frame }
        ensures frames { self.new.frames ≡ self.old.frames }
    {
        let FrameRun { first, count } = run;
        self.free += count;
        if count == 0 {
            return;
        }
        let last = self.cells.cell_after(first, count as usize - 1);
        self.cells.set_link(last, self.first_free);
        self.first_free = first;
    }

    /// Copies the bytes of a run into `out` until it is full, from the byte `start` of the run on.
    pub fn read(&self, run: &FrameRun, start: u64, out: &mut [u8])
        requires owned { Owns self.now run.now }
        requires range { start + length out.old ≤ length (bytes_of self.now run.now) }
        ensures { out.new ≡ take (length out.old) (drop start (bytes_of self.now run.now)) }
    {
        self.cells.read_run(run, start as usize, out);
    }

    /// Writes bytes over those of a run, from the byte `start` of the run on.
    pub fn write(&mut self, run: &FrameRun, start: u64, bytes: &[u8])
        requires owned { Owns self.old run.now }
        requires range { start + length bytes.now ≤ length (bytes_of self.old run.now) }
        ensures owned { Owns self.new run.now }
        ensures written { bytes_of self.new run.now ≡ overwritten (bytes_of self.old run.now) start bytes.now }

        // Nothing but the bytes of this run changes.
        ensures free { self.new.free ≡ self.old.free }
        ensures others { KeepsOthers self.old self.new run.now }
        ensures after { self.new ≡ with_run self.old run.now (Some (overwritten (bytes_of self.old run.now) start bytes.now)) self.old.free }
        ensures sum { HasFrameSum self.new }
        ensures frame { self.new.frame ≡ self.old.frame }
        ensures frames { self.new.frames ≡ self.old.frames }
    {
        self.cells.write_run(run, start as usize, bytes);
    }

    /// How many frames are free.
    pub fn free(&self) -> u32
        ensures value { result ≡ self.now.free }
        ensures sum { HasFrameSum self.now }
    {
        self.free
    }
}
