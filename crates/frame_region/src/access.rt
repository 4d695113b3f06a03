ghost use Rattle.std.specs.Prelude.{◌≡◌, ◌+◌, ◌*◌, ◌<◌, ◌≤◌, ℕ, length, take, drop, replicate, IfOk, slice_index, slice_set};
ghost use Rattle.frame_region.specs.Held.{links_in, bytes_in};
ghost use Rattle.frame_region.specs.Region.{overwritten};

use crate::block::{copy_in, copy_out, read_link, write_link};
use crate::cells::Cells;
use std::alloc::{AllocError, Global};

// The size of a link in bytes.
const LINK: usize = 4;

// A frame is cleared by copies of these.
const ZEROS: [u8; 4096] = [0; 4096];

impl Cells {
    /// `count` cells of `frame` bytes, each byte 0, and each cell linked to the next.
    pub fn new(alloc: Global, count: u32, frame: u32) -> Result<Self, AllocError>
        requires count { count ≤ 4194304 }
        requires not_empty { 0 < frame }
        requires limited { frame ≤ 65536 }
        ensures frame { IfOk result (λ cells. cells.frame ≡ frame) }
        ensures len { IfOk result (λ cells. length (links_in cells) ≡ count) }
        ensures links { IfOk result (λ cells. (i : ℕ) → i < count → slice_index (links_in cells) i ≡ i + 1) }
        ensures zero { IfOk result (λ cells. bytes_in cells ≡ replicate (count * frame) 0) }
    {
        let frame = frame as usize;
        let block = vec![in alloc; 0; count as usize * (frame + LINK)]?;
        let mut cells = Cells {
            frame,
            count,
            block,
        };
        for cell in 0..count {
            cells.set_link(cell, cell + 1);
        }
        Ok(cells)
    }

    /// The cell that this one is linked to.
    pub fn link(&self, cell: u32) -> u32
        requires { cell < length (links_in self.now) }
        ensures { result ≡ slice_index (links_in self.now) cell }
    {
        read_link(self.block.as_slice(), cell as usize * (self.frame + LINK))
    }

    /// Links a cell to another, or to none by a number that no cell has.
    pub fn set_link(&mut self, cell: u32, next: u32)
        requires { cell < length (links_in self.old) }
        ensures links { links_in self.new ≡ slice_set (links_in self.old) cell next }
        ensures frame { self.new.frame ≡ self.old.frame }
        ensures bytes { bytes_in self.new ≡ bytes_in self.old }
    {
        let at = cell as usize * (self.frame + LINK);
        write_link(self.block.as_mut_slice(), at, next);
    }

    /// Copies bytes of a cell, from `offset` on, until `out` is full.
    pub fn copy_out(&self, cell: u32, offset: usize, out: &mut [u8])
        requires cell { cell < length (links_in self.now) }
        requires range { offset + length out.old ≤ self.now.frame }
        ensures { out.new ≡ take (length out.old) (drop (cell * self.now.frame + offset) (bytes_in self.now)) }
    {
        let start = cell as usize * (self.frame + LINK) + LINK + offset;
        copy_out(self.block.as_slice(), start, out);
    }

    /// Copies bytes into a cell, from `offset` on.
    pub fn copy_in(&mut self, cell: u32, offset: usize, source: &[u8])
        requires cell { cell < length (links_in self.old) }
        requires range { offset + length source.now ≤ self.old.frame }
        ensures bytes { bytes_in self.new ≡ overwritten (bytes_in self.old) (cell * self.old.frame + offset) source.now }
        ensures frame { self.new.frame ≡ self.old.frame }
        ensures links { links_in self.new ≡ links_in self.old }
    {
        let start = cell as usize * (self.frame + LINK) + LINK + offset;
        copy_in(self.block.as_mut_slice(), start, source);
    }

    /// Makes each byte of a cell 0.
    pub fn clear(&mut self, cell: u32)
        requires { cell < length (links_in self.old) }
        ensures bytes { bytes_in self.new ≡ overwritten (bytes_in self.old) (cell * self.old.frame) (replicate self.old.frame 0) }
        ensures frame { self.new.frame ≡ self.old.frame }
        ensures links { links_in self.new ≡ links_in self.old }
    {
        let frame = self.frame;
        let mut done = 0;
        while done < frame {
            let part = (frame - done).min(ZEROS.len());
            self.copy_in(cell, done, &ZEROS[..part]);
            done += part;
        }
    }
}
