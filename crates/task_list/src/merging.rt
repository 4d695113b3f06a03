//! The rows of a listing out of the pages of a container's shards.
ghost use Rattle.std.specs.Prelude.{◌≡◌, Some, None, if◌then◌else◌};
ghost use Rattle.object_words.specs.Tags.{has_due};

use crate::cursor::Cursor;
use crate::merge::Merge;
use crate::progress::Progress;
use list_words::{ListCommand, ListedRows};
use object_words::{Bucket, Entry, EntryPage, ObjectName, SeenSlot, Tags, shard_of};
use rgw_types::Text;
use std::alloc::{AllocError, Global};

/// Which page comes next: of this shard, above this name.
#[derive(Drop)]
pub struct NextPage {
    pub shard: u32,
    pub after: Text,
}

/// An entry that had a tag due at its page.
#[derive(Clone, Copy, Debug, PartialEq, Eq)]
pub struct Due {
    pub shard: u32,
    pub revision: u64,
    /// The clock at the page.
    pub seen: u64,
}

/// A name whose head is wanted.
#[derive(Drop)]
pub struct Wanted {
    pub name: ObjectName,
    /// Its entry, where a suggestion is due.
    pub due: Option<Due>,
}

/// Pages of the shards that a row names.
#[derive(Drop)]
pub struct Merging {
    pub row: Bucket,
    pub progress: Progress,
    merge: Merge,
    /// No page of this shard was asked for, nor of those behind it.
    unread: u32,
    /// A shard of which nothing is left but what may stand behind its page.
    used_up: Option<NextPage>,
}

/// What a listing needs to go on.
#[derive(Drop)]
pub enum Next {
    Page(NextPage),
    /// The head of this name.
    Head(Wanted),
    /// Nothing: the rows are there.
    Done,
}

/// What a name out of a page is to a listing.
#[derive(Clone, Copy, Debug, PartialEq, Eq)]
enum Place {
    /// Neither it nor any above it is asked for.
    Past,
    /// It is not asked for, or settled, or of another shard.
    Elsewhere,
    /// The last row is of its subdir.
    Listed,
    /// It may be the next row.
    Due,
}

/// What became of an entry.
#[derive(Drop)]
enum Passed {
    On,
    /// The listing asks for no name from here on.
    Past,
    /// The head of this name comes next.
    Head(Wanted),
}

impl Merging {
    ghost use Rattle.std.specs.Prelude.{◌≡◌, ◌++◌, ◌∷◌, [], ℕ, ◌≤◌, List, None, Some, IfOk, OnOk};
    ghost use Rattle.realm_model.specs.Owns.{OwnEvent};
    ghost use Rattle.list_words.specs.declared.command.ListCommand.{ListCommand as CommandOf};
    ghost use Rattle.task_list.specs.Progresses.{settled_of, rows_in};
    ghost use Rattle.task_list.specs.Stages.{IsSettledTo, IsRowShown, MergingFits, HeadFits, IsPageEvent, IsHeadEvent, row_in};
    ghost use Rattle.task_list.specs.Repairs.{Told, told_row};
    ghost use Rattle.task_list.specs.Sightings.{MergingTold, IsInOrder, with_page, PassesNames};

    /// No page came yet.
    pub fn new(alloc: Global, row: Bucket, progress: Progress) -> Merging
        ensures row { row_in result ≡ row }
        ensures fits { (zone : ℕ) (c : CommandOf) (events : List OwnEvent)
            → IsRowShown zone c row events
            → IsSettledTo zone c row.id (settled_of progress) (rows_in progress) events
            → MergingFits zone c result None events }
        ensures told { MergingTold result None (told_row (Some (row_in result))) }
        ensures none { result.used_up ≡ None }
    {
        Merging {
            row,
            progress,
            merge: Merge::new(alloc),
            unread: 0,
            used_up: None,
        }
    }

    /// The rows.
    pub fn into_rows(self) -> ListedRows
        ensures { result ≡ rows_in self.progress }
    {
        let Merging { progress, .. } = self;
        progress.into_rows()
    }

    /// Adds the page that came next.
    pub fn put(&mut self, next: &NextPage, page: EntryPage) -> Result<(), AllocError>
        ensures row { row_in self.new ≡ row_in self.old }
        ensures none { self.new.used_up ≡ self.old.used_up }
        ensures fits { OnOk result ((zone : ℕ) (c : CommandOf) (events : List OwnEvent) (own : OwnEvent)
            → MergingFits zone c self.old (Some next.now) events
            → IsPageEvent zone (row_in self.old) next.now page events own
            → MergingFits zone c self.new None (events ++ own ∷ [])) }
        ensures told { OnOk result ((t : Told) → MergingTold self.old (Some next.now) t → IsInOrder (Some page)
            → MergingTold self.new None (with_page (row_in self.old) next.now page t)) }
    {
        if let Some(cursor) = Cursor::new(next.shard, page) {
            self.merge.push(cursor)?;
        }
        Ok(())
    }

    /// Goes on by what the head of a name shows.
    pub fn settle(
        &mut self,
        alloc: Global,
        command: &ListCommand,
        name: ObjectName,
        slot: SeenSlot,
    ) -> Result<(), AllocError>
        ensures row { row_in self.new ≡ row_in self.old }
        ensures fits { OnOk result ((zone : ℕ) (events : List OwnEvent) (own : OwnEvent)
            → HeadFits zone command.now self.old name events
            → IsHeadEvent zone (row_in self.old).id name slot events own
            → MergingFits zone command.now self.new self.new.used_up (events ++ own ∷ [])) }
        ensures told { (t : Told) → MergingTold self.old self.old.used_up t → MergingTold self.new self.new.used_up t }
    {
        self.progress.take_head(alloc, command, name, slot)
    }

    /// Passes names up to the first event that is wanted.
    pub fn go_on(&mut self, alloc: Global, command: &ListCommand) -> Result<Next, AllocError>
        ensures row { row_in self.new ≡ row_in self.old }
        ensures passes { IfOk result (PassesNames command.now self.old self.new) }
    {
        let shards = self.row.shards.get();
        if self.unread < shards {
            let after = self.progress.settled(alloc)?;
            let next = NextPage {
                shard: self.unread,
                after,
            };
            self.unread += 1;
            return Ok(Next::Page(next));
        }
        self.advance(alloc, command)
    }
}

impl Merging {
    ghost use Rattle.std.specs.Prelude.{◌≡◌, ◌<◌, ◌+◌, ℕ, List, None, length, ◌==◌, ◌&&◌, IfOk, OnOk};
    ghost use Rattle.list_words.specs.declared.command.ListCommand.{ListCommand as CommandOf};
    ghost use Rattle.object_words.specs.Hashes.{shard_of};
    ghost use Rattle.realm_model.specs.Owns.{OwnEvent};
    ghost use Rattle.list_words.specs.Listings.{is_before, most_rows};
    ghost use Rattle.task_list.specs.Cursors.{left_of};
    ghost use Rattle.task_list.specs.Merges.{left_count};
    ghost use Rattle.task_list.specs.Progresses.{settled_of, rows_in};
    ghost use Rattle.task_list.specs.Stages.{MergingFits, PoppedFits, EntryFits, PassedFits, IsRead, IsPlace, row_in};
    ghost use Rattle.task_list.specs.Repairs.{Told};
    ghost use Rattle.task_list.specs.Sightings.{MergingTold, PoppedTold, EntryTold, PassedTold, PassesNames};

    /// Passes names, where a page of each shard was asked for.
    fn advance(&mut self, alloc: Global, command: &ListCommand) -> Result<Next, AllocError>
        requires { IsRead self.old }
        ensures row { row_in self.new ≡ row_in self.old }
        ensures passes { IfOk result (PassesNames command.now self.old self.new) }
    {
        'names: loop {
            if self.progress.is_full(command) {
                return Ok(Next::Done);
            }
            if let Some(next) = self.used_up.take() {
                return Ok(Next::Page(next));
            }
            let Some(cursor) = self.merge.pop() else {
                return Ok(Next::Done);
            };
            match self.pass(alloc, command, cursor)? {
                Passed::On => {}
                Passed::Past => return Ok(Next::Done),
                Passed::Head(wanted) => return Ok(Next::Head(wanted)),
            }
        }
    }

    /// Passes the first entry of a page that was taken out.
    fn pass(
        &mut self,
        alloc: Global,
        command: &ListCommand,
        cursor: Cursor,
    ) -> Result<Passed, AllocError>
        requires read { IsRead self.old }
        requires none { self.old.used_up ≡ None }
        requires room { length (rows_in self.old.progress) < most_rows command.now }
        ensures row { row_in self.new ≡ row_in self.old }
        ensures unread { self.new.unread ≡ self.old.unread }
        ensures fits { IfOk result (λ passed. (zone : ℕ) (events : List OwnEvent)
            → PoppedFits zone command.now self.old cursor events
            → PassedFits zone command.now self.new passed events) }
        ensures told { IfOk result (λ passed. (t : Told)
            → PoppedTold self.old cursor t → PassedTold self.new passed t) }
        ensures fewer { IfOk result (λ _. left_count self.new.merge < left_count self.old.merge + length (left_of cursor)) }
    {
        let shard = cursor.shard;
        let clock = cursor.clock;
        let entry = self.put_back(cursor)?;
        self.take(alloc, command, shard, clock, entry)
    }

    /// Takes the first entry of a page, and puts back what is left.
    fn put_back(&mut self, cursor: Cursor) -> Result<Entry, AllocError>
        requires read { IsRead self.old }
        requires none { self.old.used_up ≡ None }
        ensures row { row_in self.new ≡ row_in self.old }
        ensures unread { self.new.unread ≡ self.old.unread }
        ensures progress { self.new.progress ≡ self.old.progress }
        ensures fits { IfOk result (λ entry. (zone : ℕ) (c : CommandOf) (events : List OwnEvent)
            → PoppedFits zone c self.old cursor events
            → EntryFits zone c self.new cursor.shard entry events) }
        ensures told { IfOk result (λ entry. (t : Told)
            → PoppedTold self.old cursor t → EntryTold self.new cursor.shard cursor.clock entry t) }
        ensures fewer { OnOk result (left_count self.new.merge < left_count self.old.merge + length (left_of cursor)) }
    {
        let shard = cursor.shard;
        let end = cursor.end;
        let (entry, rest) = cursor.split();
        match rest {
            Some(rest) => {
                self.merge.push(rest)?;
                Ok(entry)
            }
            None if end => Ok(entry),
            None => {
                let after = entry.name.as_text().clone()?;
                self.used_up = Some(NextPage { shard, after });
                Ok(entry)
            }
        }
    }

    /// Settles a name by its entry, or passes it over where the listing does not ask for it.
    fn take(
        &mut self,
        alloc: Global,
        command: &ListCommand,
        shard: u32,
        clock: u64,
        entry: Entry,
    ) -> Result<Passed, AllocError>
        requires read { IsRead self.old }
        requires room { length (rows_in self.old.progress) < most_rows command.now }
        ensures row { row_in self.new ≡ row_in self.old }
        ensures unread { self.new.unread ≡ self.old.unread }
        ensures merge { self.new.merge ≡ self.old.merge }
        ensures fits { IfOk result (λ passed. (zone : ℕ) (events : List OwnEvent)
            → EntryFits zone command.now self.old shard entry events
            → PassedFits zone command.now self.new passed events) }
        ensures told { IfOk result (λ passed. (t : Told)
            → EntryTold self.old shard clock entry t → PassedTold self.new passed t) }
    {
        let Entry {
            name,
            revision,
            row,
            tags,
            ..
        } = entry;
        match self.place(command, shard, &name) {
            Place::Past => Ok(Passed::Past),
            Place::Elsewhere => Ok(Passed::On),
            Place::Listed => {
                self.progress.settle(&name)?;
                Ok(Passed::On)
            }
            Place::Due if tags.is_empty() => {
                self.progress.take(alloc, command, name, row)?;
                Ok(Passed::On)
            }
            Place::Due => {
                let due = due_by(shard, clock, revision, &tags);
                Ok(Passed::Head(Wanted { name, due }))
            }
        }
    }

    /// What a name out of a page of a shard is to the listing.
    fn place(&self, command: &ListCommand, shard: u32, name: &ObjectName) -> Place
        ensures { IsPlace command.now self.now shard name.now result }
    {
        let Some(key) = command.key(name) else {
            return if command.is_past(name) {
                Place::Past
            } else {
                Place::Elsewhere
            };
        };
        if !self.is_due(shard, name) {
            Place::Elsewhere
        } else if self.progress.is_listed(key) {
            Place::Listed
        } else {
            Place::Due
        }
    }

    /// Whether the name is of this shard, and is not settled.
    fn is_due(&self, shard: u32, name: &ObjectName) -> bool
        ensures { result ≡ ((shard_of name.now (row_in self.now).shards == shard)
            && is_before (settled_of self.now.progress) name.now) }
    {
        shard_of(name.as_text().as_bytes(), self.row.shards) == shard && self.progress.is_open(name)
    }
}

/// What a suggestion needs to know of an entry on a page of this shard at this clock, where one is due.
fn due_by(shard: u32, clock: u64, revision: u64, tags: &Tags) -> Option<Due>
    ensures { result ≡ (if has_due clock tags.now
        then Some (record { shard = shard; revision = revision; seen = clock })
        else None) }
{
    if has_due(tags, clock) {
        Some(Due {
            shard,
            revision,
            seen: clock,
        })
    } else {
        None
    }
}

/// Whether some tag is due at a moment.
fn has_due(tags: &Tags, moment: u64) -> bool
    ensures { result ≡ has_due moment tags.now }
{
    tags.as_slice().iter().any(|tag| tag.deadline <= moment)
}
