use object_words::{BucketName, BucketNames};
use std::marker::Model;
use std::vec::IntoIter;
use task_words::PAGE_LIMIT;

/// What is left of a page of names.
#[derive(Drop)]
pub struct NamesLeft {
    rest: IntoIter<BucketName>,
    /// Whether there is no name behind the page.
    is_last: bool,
}

impl Model for NamesLeft {
    ghost use Rattle.std.specs.Vec.Iter.{into_iter_items};
    ghost use Rattle.task_account.specs.Asking.{LeftView};

    ghost Value = { LeftView };

    ghost view = { λ s. record { rest = into_iter_items s.rest; is_last = s.is_last } };
}

impl NamesLeft {
    ghost use Rattle.std.specs.Prelude.{◌≡◌};
    ghost use Rattle.task_account.specs.Asking.{page_of, behind_first, first_of};

    /// All of a page. A page that is not full is the last.
    pub fn new(names: BucketNames) -> NamesLeft
        ensures { result ≡ page_of names }
    {
        NamesLeft {
            is_last: names.len() < PAGE_LIMIT as usize,
            rest: names.into_vec().into_iter(),
        }
    }

    /// Whether there is no name behind the page.
    pub fn is_last(&self) -> bool
        ensures { result ≡ self.now.is_last }
    {
        self.is_last
    }

    /// Takes the first name out.
    pub fn next(&mut self) -> Option<BucketName>
        ensures first { result ≡ first_of self.old.rest }
        ensures left { self.new ≡ behind_first self.old }
    {
        self.rest.next()
    }
}
