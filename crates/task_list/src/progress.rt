ghost use Rattle.std.specs.Prelude.{◌≡◌};
ghost use Rattle.list_words.specs.declared.row.ListedRow.TheVariants.{Subdir};
ghost use Rattle.list_words.specs.Listings.{is_same_subdir};

use byte_order::compare;
use list_words::{Key, ListCommand, ListedRow, ListedRows, ListedThing};
use object_words::{EntryRow, ObjectName, SeenSlot};
use rgw_types::{Items, Text};
use std::alloc::{AllocError, Global};

/// How far a listing came.
#[derive(Drop)]
pub struct Progress {
    /// Of the names that the listing asks for, those up to this one are settled.
    settled: String,
    /// Their rows.
    rows: ListedRows,
}

impl Progress {
    ghost use Rattle.std.specs.Prelude.{◌≡◌, ◌++◌, ◌∷◌, [], true, nat_le, length, IfOk, OnOk};
    ghost use Rattle.list_words.specs.Listings.{is_before, in_scope, subdir_of, row_under, most_rows};
    ghost use Rattle.task_list.specs.Progresses.{settled_of, rows_in, rows_with, IsStart, is_listed};
    ghost use Rattle.task_list.specs.Listed.{row_if_there, slot_row};

    /// No name is settled.
    pub fn new(alloc: Global, command: &ListCommand) -> Result<Progress, AllocError>
        ensures { IfOk result (λ p. IsStart command.now (settled_of p) × (rows_in p ≡ [])) }
    {
        Ok(Progress {
            settled: command.start(alloc)?.into_string(),
            rows: Items::new(alloc),
        })
    }

    /// The name up to which all are settled.
    pub fn settled(&self, alloc: Global) -> Result<Text, AllocError>
        ensures { IfOk result (λ name. name ≡ settled_of self.now) }
    {
        Text::from_str(alloc, self.settled.as_str())
    }

    /// The rows.
    pub fn into_rows(self) -> ListedRows
        ensures { result ≡ rows_in self }
    {
        let Progress { rows, .. } = self;
        rows
    }

    /// Whether so many rows are there as the listing shows at most.
    pub fn is_full(&self, command: &ListCommand) -> bool
        ensures { result ≡ nat_le (most_rows command.now) (length (rows_in self.now)) }
    {
        self.rows.len() >= command.most_rows()
    }

    /// Whether the name is above all that are settled.
    pub fn is_open(&self, name: &ObjectName) -> bool
        ensures { result ≡ is_before (settled_of self.now) name.now }
    {
        compare(self.settled.as_bytes(), name.as_text().as_bytes()).is_lt()
    }

    /// Whether names with this key have their row already.
    pub fn is_listed(&self, key: Key) -> bool
        ensures { result ≡ is_listed (rows_in self.now) key.entry }
    {
        let Key::Subdir(subdir) = key else {
            return false;
        };
        match self.rows.as_slice().last() {
            Some(row) => is_of_subdir(row, subdir),
            None => false,
        }
    }

    /// Goes up to a name.
    pub fn settle(&mut self, name: &ObjectName) -> Result<(), AllocError>
        ensures settled { OnOk result (settled_of self.new ≡ name.now) }
        ensures rows { rows_in self.new ≡ rows_in self.old }
    {
        self.settled.clear();
        self.settled.push_str(name.as_text().as_str())
    }

    /// Goes up to a name for which the listing asks, and lists it.
    pub fn list(
        &mut self,
        alloc: Global,
        command: &ListCommand,
        name: ObjectName,
        thing: ListedThing,
    ) -> Result<(), AllocError>
        ensures settled { OnOk result (settled_of self.new ≡ name) }
        ensures rows { OnOk result (in_scope command.now name ≡ true → rows_in self.new
            ≡ rows_in self.old ++ row_under (subdir_of command.now name) name thing ∷ []) }
    {
        self.settle(&name)?;
        let row = match command.key(&name) {
            Some(Key::Subdir(subdir)) => ListedRow::Subdir(Text::from_str(alloc, subdir)?),
            _ => ListedRow::Thing(name, thing),
        };
        self.rows.push(row)
    }

    /// Goes up to a name for which the listing asks, and lists it where its head shows an object.
    pub fn take_head(
        &mut self,
        alloc: Global,
        command: &ListCommand,
        name: ObjectName,
        slot: SeenSlot,
    ) -> Result<(), AllocError>
        ensures settled { OnOk result (settled_of self.new ≡ name) }
        ensures rows { OnOk result (in_scope command.now name ≡ true
            → rows_in self.new ≡ rows_with command.now (rows_in self.old) name (slot_row slot)) }
    {
        match slot {
            SeenSlot::Live(new, stamp) => {
                self.list(alloc, command, name, ListedThing::of_head(new, stamp))
            }
            SeenSlot::Nothing | SeenSlot::Mark(_) => self.settle(&name),
        }
    }

    /// Goes up to a name for which the listing asks, and lists it where its row says that it exists.
    pub fn take(
        &mut self,
        alloc: Global,
        command: &ListCommand,
        name: ObjectName,
        row: EntryRow,
    ) -> Result<(), AllocError>
        ensures settled { OnOk result (settled_of self.new ≡ name) }
        ensures rows { OnOk result (in_scope command.now name ≡ true
            → rows_in self.new ≡ rows_with command.now (rows_in self.old) name (row_if_there row)) }
    {
        if row.exists {
            self.list(alloc, command, name, ListedThing::of_row(row))
        } else {
            self.settle(&name)
        }
    }
}

/// Whether the row is of this subdir.
fn is_of_subdir(row: &ListedRow, subdir: &str) -> bool
    ensures { result ≡ is_same_subdir (Subdir subdir.now) row.now }
{
    match row {
        ListedRow::Subdir(last) => subdir.as_bytes() == last.as_bytes(),
        ListedRow::Thing(..) => false,
    }
}
