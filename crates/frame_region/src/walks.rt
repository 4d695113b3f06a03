ghost use Rattle.std.specs.Prelude.{◌≡◌, ◌≢◌, ◌+◌, ◌-◌, ◌*◌, ◌<◌, ◌≤◌, ℕ, length, take, drop, replicate};
ghost use Rattle.frame_region.specs.Held.{links_in, bytes_in};
ghost use Rattle.frame_region.specs.Region.{overwritten};
ghost use Rattle.frame_region.specs.Cells.{content, after, bytes_along, IsWalk, IsPath, KeepsOffPath};

use crate::cells::Cells;
use crate::run::FrameRun;

impl Cells {
    /// The cell that so many links lead to from this one.
    pub fn cell_after(&self, first: u32, steps: usize) -> u32
        requires { IsWalk (links_in self.now) first steps }
        ensures { result ≡ after (links_in self.now) first steps }
    {
        let mut cell = first;
        for _step in 0..steps {
            cell = self.link(cell);
        }
        cell
    }

    /// Makes each byte of so many cells 0, from this one on along the links, and gives the last of them.
    pub fn clear_path(&mut self, first: u32, count: u32) -> u32
        requires some { 0 < count }
        requires path { IsPath (links_in self.old) first count }
        ensures last { result ≡ after (links_in self.old) first (count - 1) }
        ensures zero { bytes_along self.old.frame (links_in self.old) (bytes_in self.new) first count ≡ replicate (count * self.old.frame) 0 }
        ensures others { KeepsOffPath self.old.frame (links_in self.old) first count (bytes_in self.old) (bytes_in self.new) }
        ensures frame { self.new.frame ≡ self.old.frame }
        ensures links { (links_in self.new) ≡ (links_in self.old) }
    {
        let mut last = first;
        let mut cell = first;
        for _step in 0..count {
            self.clear(cell);
            last = cell;
            cell = self.link(cell);
        }
        last
    }

    /// Copies bytes of a run's cells, from `start` on, until `out` is full.
    pub fn read_run(&self, run: &FrameRun, start: usize, out: &mut [u8])
        requires walk { IsWalk (links_in self.now) run.now.first run.now.count }
        requires range { start + length out.old ≤ run.now.count * self.now.frame }
        ensures { out.new ≡ take (length out.old) (drop start (bytes_along self.now.frame (links_in self.now) (bytes_in self.now) run.now.first run.now.count)) }
    {
        let frame = self.frame;
        let mut cell = self.cell_after(run.first, start / frame);
        let mut offset = start % frame;
        let mut done = 0;
        while done < out.len() {
            let part = (frame - offset).min(out.len() - done);
            self.copy_out(cell, offset, &mut out[done..done + part]);
            cell = self.link(cell);
            offset = 0;
            done += part;
        }
    }

    /// Copies bytes into a run's cells, from `start` on.
    pub fn write_run(&mut self, run: &FrameRun, start: usize, source: &[u8])
        requires path { IsPath (links_in self.old) run.now.first run.now.count }
        requires range { start + length source.now ≤ run.now.count * self.old.frame }
        ensures written { bytes_along self.old.frame (links_in self.old) (bytes_in self.new) run.now.first run.now.count ≡ overwritten (bytes_along self.old.frame (links_in self.old) (bytes_in self.old) run.now.first run.now.count) start source.now }
        ensures others { KeepsOffPath self.old.frame (links_in self.old) run.now.first run.now.count (bytes_in self.old) (bytes_in self.new) }
        ensures frame { self.new.frame ≡ self.old.frame }
        ensures links { (links_in self.new) ≡ (links_in self.old) }
    {
        let frame = self.frame;
        let mut cell = self.cell_after(run.first, start / frame);
        let mut offset = start % frame;
        let mut done = 0;
        while done < source.len() {
            let part = (frame - offset).min(source.len() - done);
            self.copy_in(cell, offset, &source[done..done + part]);
            cell = self.link(cell);
            offset = 0;
            done += part;
        }
    }
}
