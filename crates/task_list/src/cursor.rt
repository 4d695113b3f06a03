use byte_order::compare;
use object_words::{Entry, EntryPage};
use std::cmp::Ordering;
use std::vec::IntoIter;

/// What is left of a page of a shard.
#[derive(Drop)]
pub struct Cursor {
    pub shard: u32,
    /// The first entry that is left.
    pub front: Entry,
    /// The entries behind it.
    pub rest: IntoIter<Entry>,
    /// Whether the shard has no entry behind the page.
    pub end: bool,
    /// The clock at the page.
    pub clock: u64,
}

impl Cursor {
    ghost use Rattle.std.specs.Prelude.{◌≡◌, ◌∷◌, [], IfSome, IfNone};
    ghost use Rattle.task_list.specs.Cursors.{left_of, left_in};

    /// All of a page; `None` where it has no entries.
    pub fn new(shard: u32, page: EntryPage) -> Option<Cursor>
        ensures some { IfSome result (λ c. (c.shard ≡ shard) × (c.end ≡ page.end) × (left_of c ≡ page.rows)) }
        ensures clock { IfSome result (λ c. c.clock ≡ page.clock) }
        ensures none { IfNone result (page.rows ≡ []) }
    {
        let end = page.end;
        let clock = page.clock;
        let mut rest = page.rows.into_vec().into_iter();
        let front = rest.next()?;
        Some(Cursor {
            shard,
            front,
            rest,
            end,
            clock,
        })
    }

    /// The first entry, and what is left without it.
    pub fn split(self) -> (Entry, Option<Cursor>)
        ensures left { left_of self ≡ result.0 ∷ left_in result.1 }
        ensures same { IfSome result.1 (λ c. (c.shard ≡ self.shard) × (c.end ≡ self.end)) }
        ensures clock { IfSome result.1 (λ c. c.clock ≡ self.clock) }
    {
        let Cursor {
            shard,
            front,
            mut rest,
            end,
            clock,
        } = self;
        let next = match rest.next() {
            Some(next) => Some(Cursor {
                shard,
                front: next,
                rest,
                end,
                clock,
            }),
            None => None,
        };
        (front, next)
    }
}

// The cursor whose front has the least name is the greatest, so that it comes out of a heap first.

impl PartialEq for Cursor {
    ghost use Rattle.task_list.specs.Cursors.{cursor_eq, cursor_eq_laws};

    ghost eq = { cursor_eq };

    ghost laws = { cursor_eq_laws };

    fn eq(&self, other: &Cursor) -> bool {
        self.cmp(other) == Ordering::Equal
    }
}

impl Eq for Cursor {
    ghost use Rattle.task_list.specs.Cursors.{cursor_eq_equiv};

    ghost laws = { cursor_eq_equiv };
}

impl PartialOrd for Cursor {
    ghost use Rattle.std.specs.Prelude.{Some};
    ghost use Rattle.task_list.specs.Cursors.{cursor_cmp, cursor_po};

    ghost partial_cmp = { λ x y. Some (cursor_cmp x y) };

    ghost laws = { cursor_po };

    fn partial_cmp(&self, other: &Cursor) -> Option<Ordering> {
        Some(self.cmp(other))
    }
}

impl Ord for Cursor {
    ghost use Rattle.std.specs.Prelude.{refl};
    ghost use Rattle.task_list.specs.Cursors.{cursor_cmp, cursor_total};

    ghost cmp = { cursor_cmp };

    ghost total = { cursor_total };

    ghost matches_partial_cmp = { λ x y. refl };

    ghost matches_eq = { λ x y. refl };

    fn cmp(&self, other: &Cursor) -> Ordering {
        let name = self.front.name.as_text().as_bytes();
        compare(other.front.name.as_text().as_bytes(), name)
    }
}
