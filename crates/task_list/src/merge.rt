//! Names out of many pages in their order.
ghost use Rattle.std.specs.BinaryHeap.{heap_items, IsHeap};
ghost use Rattle.std.proofs.Props.{props};
ghost use Rattle.task_list.specs.Cursors.{cursor_cmp};

use crate::cursor::Cursor;
use std::alloc::{AllocError, Global};
use std::collections::BinaryHeap;

/// What is left of pages of several shards.
#[derive(Drop)]
pub struct Merge {
    cursors: BinaryHeap<Cursor>,
    ghost ordered: { IsHeap cursor_cmp (heap_items cursors) } by { Prim.hlevel props },
}

impl Merge {
    ghost use Rattle.std.specs.Prelude.{◌≡◌, ◌∷◌, [], false, IfSome, IfNone, OnOk};
    ghost use Rattle.std.specs.List.{All};
    ghost use Rattle.std.specs.List.Sorted.{IsPermutation};
    ghost use Rattle.list_words.specs.Listings.{is_before};
    ghost use Rattle.task_list.specs.Cursors.{name_of};
    ghost use Rattle.task_list.specs.Merges.{cursors_of};

    pub fn new(alloc: Global) -> Merge
        ensures { cursors_of result ≡ [] }
    {
        Merge {
            cursors: BinaryHeap::new(alloc),
        }
    }

    /// The page whose first name is the least; `None` where nothing is left.
    pub fn pop(&mut self) -> Option<Cursor>
        ensures taken { IfSome result (λ c. IsPermutation (cursors_of self.old) (c ∷ cursors_of self.new)) }
        ensures least { IfSome result (λ c.
            All (λ other. is_before (name_of other) (name_of c) ≡ false) (cursors_of self.new)) }
        ensures none { IfNone result (cursors_of self.old ≡ []) }
    {
        self.cursors.pop()
    }

    /// Adds what is left of a page.
    pub fn push(&mut self, cursor: Cursor) -> Result<(), AllocError>
        ensures { OnOk result (IsPermutation (cursor ∷ cursors_of self.old) (cursors_of self.new)) }
    {
        self.cursors.push(cursor)?;
        Ok(())
    }
}
