//! Where a listing stands, and how an answer brings it on.
ghost use Rattle.std.specs.Prelude.{◌≡◌, ◌++◌, ◌∷◌, [], ℕ, true, List, Some, None, IfOk, if◌then◌else◌};
ghost use Rattle.realm_model.specs.Owns.{OwnEvent};
ghost use Rattle.task_words.specs.Rows.{row_refusal};
ghost use Rattle.task_list.specs.Progresses.{settled_of, rows_in};
ghost use Rattle.task_list.specs.Stages.{IsSettledTo, MergingFits};
ghost use Rattle.task_list.specs.Tasks.{IsGoing, IsSound, KnownFits, WentOn, AfterRow, AfterPage, AfterHead, AfterSuggestion, Takes, TakesTold, head_shown, after_left};
ghost use Rattle.task_list.specs.Repairs.{may_stand};
ghost use Rattle.task_list.specs.Sightings.{RowTold, PageTold, HeadTold, OnTold, suggestion_due, asks_suggestion};
ghost use Rattle.object_words.specs.Heads.{row_of};
ghost use Rattle.swift_auth.specs.declared.policy.Deed.TheVariants.{ListContainer as to_list};

use crate::merging::{Merging, Next, NextPage, Wanted};
use crate::progress::Progress;
use crate::request::ListRequest;
use list_words::ListCommand;
use object_words::{Bucket, EntryPage, EntryRow, HeadSeen, ObjectName, SeenSlot, ShardKey};
use realm_model::{Op, Reply};
use std::alloc::{AllocError, Global};
use swift_auth::Deed;
use task_words::{MOST_MOVED, MapReply, Outcome};

/// A realm has at most so many zones.
const MOST_ZONES: u8 = 8;

/// How far a listing came in a container.
#[derive(Drop)]
pub struct Known {
    pub container: u64,
    pub progress: Progress,
}

/// What is suggested for an entry, by what its head showed.
#[derive(Drop)]
pub struct Suggestion {
    pub shard: u32,
    pub name: ObjectName,
    pub revision: u64,
    /// The clock at which the entry was seen.
    pub seen: u64,
    pub version: u64,
    pub row: EntryRow,
}

impl Suggestion {
    /// As an operation on a shard of this row.
    pub fn op(&self, zone: u8, row: &Bucket) -> Result<Op, AllocError>
        ensures { IfOk result (λ op. op ≡ asks_suggestion zone row.now self.now) }
    {
        Ok(Op::Suggest {
            zone,
            key: ShardKey {
                container: row.id,
                instance: row.instance,
                shard: self.shard,
            },
            name: self.name.clone()?,
            revision: self.revision,
            seen: self.seen,
            version: self.version,
            row: EntryRow {
                exists: self.row.exists,
                size: self.row.size,
                stamp: self.row.stamp,
                etag: self.row.etag,
                kind: self.row.kind.clone()?,
            },
        })
    }
}

/// Where a listing stands.
#[derive(Drop)]
pub enum Stage {
    /// The row comes next.
    Look(Option<Known>),
    /// A page comes next.
    Page(Merging, NextPage),
    /// The head of a name comes next.
    Head(Merging, Wanted),
    /// A suggestion comes next.
    Suggest(Merging, Suggestion),
    /// There was no memory to go on.
    Broken,
    Ended(Outcome),
}

/// The stage after an answer, and how many were Moved or Closed.
pub fn next_stage(
    alloc: Global,
    request: &ListRequest,
    stage: Stage,
    moved: u32,
    reply: Reply,
) -> Result<(Stage, u32), AllocError>
    requires going { IsGoing stage }
    ensures fits { IfOk result (λ s. Takes request.now stage moved reply s.0 s.1) }
    ensures told { IfOk result (λ s. TakesTold stage reply s.0) }
    ensures sound { IfOk result (λ s. IsSound s.0) }
{
    match stage {
        Stage::Look(known) => {
            let stage = stage_by_row(alloc, request, known, reply.into_row())?;
            Ok((stage, moved))
        }
        Stage::Page(merging, next) => {
            stage_by_page(
                alloc,
                &request.command,
                merging,
                next,
                moved,
                reply.into_page(),
            )
        }
        Stage::Head(merging, wanted) => {
            let stage = stage_by_head(alloc, &request.command, merging, wanted, head_in(reply))?;
            Ok((stage, moved))
        }
        Stage::Suggest(merging, suggestion) => {
            drop(suggestion);
            drop(reply);
            let stage = went_on(alloc, &request.command, merging)?;
            Ok((stage, moved))
        }
        Stage::Broken | Stage::Ended(_) => unreachable!(),
    }
}

/// What an answer shows of a head.
fn head_in(reply: Reply) -> HeadSeen
    ensures { result ≡ head_shown reply }
{
    match reply {
        Reply::Head(seen, _) => seen,
        other => {
            drop(other);
            HeadSeen {
                version: 0,
                slot: SeenSlot::Nothing,
            }
        }
    }
}

/// By the row that was read, or that none is.
#[tactic(auto, using(crate::proofs::First::refusal_is))]
fn stage_by_row(
    alloc: Global,
    request: &ListRequest,
    known: Option<Known>,
    row: Option<Bucket>,
) -> Result<Stage, AllocError>
    ensures fits { IfOk result (λ stage.
        AfterRow request.now.command known (row_refusal request.now.asker row to_list) row stage) }
    ensures told { IfOk result (λ stage. RowTold row stage) }
    ensures sound { IfOk result IsSound }
{
    match request.asker.refusal(row.as_ref(), Deed::ListContainer) {
        Some(refusal) => {
            drop(known);
            drop(row);
            Ok(Stage::Ended(Outcome::Done(MapReply::Refused(refusal))))
        }
        None => match row {
            Some(row) => stage_in(alloc, &request.command, known, row),
            None => unreachable!(),
        },
    }
}

/// By the row of the container.
fn stage_in(
    alloc: Global,
    command: &ListCommand,
    known: Option<Known>,
    row: Bucket,
) -> Result<Stage, AllocError>
    ensures fits { IfOk result (λ stage. AfterRow command.now known None (Some row) stage) }
    ensures told { IfOk result (λ stage. RowTold (Some row) stage) }
    ensures sound { IfOk result IsSound }
{
    let progress = progress_in(alloc, command, known, row.id)?;
    went_on(alloc, command, Merging::new(alloc, row, progress))
}

/// What was settled in the container; in another one everything begins again.
fn progress_in(
    alloc: Global,
    command: &ListCommand,
    known: Option<Known>,
    container: u64,
) -> Result<Progress, AllocError>
    ensures { IfOk result (λ progress. (zone : ℕ) (events : List OwnEvent)
        → KnownFits zone command.now known events
        → IsSettledTo zone command.now container (settled_of progress) (rows_in progress) events) }
{
    match known {
        Some(known) if known.container == container => Ok(known.progress),
        _ => Progress::new(alloc, command),
    }
}

/// By a page, or that its shard no longer serves.
fn stage_by_page(
    alloc: Global,
    command: &ListCommand,
    merging: Merging,
    next: NextPage,
    moved: u32,
    page: Option<EntryPage>,
) -> Result<(Stage, u32), AllocError>
    ensures fits { IfOk result (λ s. AfterPage command.now merging next moved page s.0 s.1) }
    ensures told { IfOk result (λ s. PageTold merging next page s.0) }
    ensures sound { IfOk result (λ s. IsSound s.0) }
{
    match page {
        Some(page) => {
            let stage = stage_with(alloc, command, merging, &next, page)?;
            Ok((stage, moved))
        }
        None => {
            let moved = moved.saturating_add(1);
            Ok((stage_when_moved(merging, moved), moved))
        }
    }
}

/// After so many answers Moved or Closed.
fn stage_when_moved(merging: Merging, moved: u32) -> Stage
    ensures left { result ≡ after_left merging moved }
    ensures sound { IsSound result }
{
    if moved < MOST_MOVED {
        let Merging { row, progress, .. } = merging;
        Stage::Look(Some(Known {
            container: row.id,
            progress,
        }))
    } else {
        drop(merging);
        Stage::Ended(Outcome::MovedOften)
    }
}

/// With the page that came.
fn stage_with(
    alloc: Global,
    command: &ListCommand,
    mut merging: Merging,
    next: &NextPage,
    page: EntryPage,
) -> Result<Stage, AllocError>
    ensures fits { IfOk result (λ stage. (AfterPage command.now merging next.now 0 (Some page) stage 0)) }
    ensures told { IfOk result (λ stage. PageTold merging next.now (Some page) stage) }
    ensures sound { IfOk result IsSound }
{
    merging.put(next, page)?;
    went_on(alloc, command, merging)
}

/// By the head of a name, and then by what is suggested for its entry, where that is due.
fn stage_by_head(
    alloc: Global,
    command: &ListCommand,
    mut merging: Merging,
    wanted: Wanted,
    head: HeadSeen,
) -> Result<Stage, AllocError>
    ensures fits { IfOk result (λ stage. AfterHead command.now merging wanted.name head.slot stage) }
    ensures told { IfOk result (λ stage. HeadTold merging wanted head stage) }
    ensures sound { IfOk result IsSound }
{
    let suggestion = suggestion_by(alloc, &wanted, &head)?;
    merging.settle(alloc, command, wanted.name, head.slot)?;
    match suggestion {
        Some(suggestion) => Ok(Stage::Suggest(merging, suggestion)),
        None => went_on(alloc, command, merging),
    }
}

/// What is suggested for the entry of a name by what its head shows, where that is due.
fn suggestion_by(
    alloc: Global,
    wanted: &Wanted,
    head: &HeadSeen,
) -> Result<Option<Suggestion>, AllocError>
    ensures { IfOk result (λ s. s ≡ suggestion_due wanted.now.due wanted.now.name head.now) }
{
    match wanted.due {
        Some(due) if may_stand(&head.slot) => Ok(Some(Suggestion {
            shard: due.shard,
            name: wanted.name.clone()?,
            revision: due.revision,
            seen: due.seen,
            version: head.version,
            row: row_by(alloc, &head.slot)?,
        })),
        _ => Ok(None),
    }
}

/// Whether the row that shows a slot may stand in an index.
fn may_stand(slot: &SeenSlot) -> bool
    ensures { result ≡ may_stand slot.now }
{
    match slot {
        SeenSlot::Live(_, stamp) => 1 <= stamp.zone && stamp.zone <= MOST_ZONES,
        _ => true,
    }
}

/// The row of the index that shows a slot.
fn row_by(alloc: Global, slot: &SeenSlot) -> Result<EntryRow, AllocError>
    requires { may_stand slot.now ≡ true }
    ensures { IfOk result (λ row. row ≡ row_of slot.now) }
{
    match slot {
        SeenSlot::Live(new, stamp) => Ok(EntryRow {
            exists: true,
            size: new.manifest.size,
            stamp: *stamp,
            etag: new.etag,
            kind: new.kind.clone()?,
        }),
        _ => Ok(EntryRow::absent(alloc)),
    }
}

/// Up to the next event, or to the end.
fn went_on(alloc: Global, command: &ListCommand, mut merging: Merging) -> Result<Stage, AllocError>
    ensures fits { IfOk result (λ stage. AfterSuggestion command.now merging stage) }
    ensures told { IfOk result (λ stage. OnTold merging stage) }
    ensures sound { IfOk result IsSound }
{
    match merging.go_on(alloc, command)? {
        Next::Page(next) => Ok(Stage::Page(merging, next)),
        Next::Head(wanted) => Ok(Stage::Head(merging, wanted)),
        Next::Done => Ok(Stage::Ended(Outcome::Done(MapReply::Listed(merging.into_rows())))),
    }
}
