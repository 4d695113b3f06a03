//! Where a task of an account stands, and how an answer brings it on.
ghost use Rattle.std.specs.Prelude.{◌≡◌, IfOk};
ghost use Rattle.task_account.specs.Asking.{with_container};
ghost use Rattle.task_account.specs.Stages.{IsOpen, names_shown, behind_page, stage_by, walk, passed, after_row, after_subdir, after_header, header_step, after_left, step_of};

use crate::asked::{Asked, Place};
use crate::counting::Counting;
use crate::names::NamesLeft;
use crate::rows::{add_container, add_subdir};
use crate::{AccountOutcome, AccountReply};
use object_words::{Bucket, BucketName, BucketNames, ShardStats};
use realm_model::Reply;
use rgw_types::Text;
use std::alloc::{AllocError, Global};
use task_words::MOST_MOVED;

/// A name of a page that is asked for.
#[derive(Drop)]
pub struct Visit {
    /// What the names before it came to.
    pub reply: AccountReply,
    pub name: BucketName,
    /// The subdir under which it is listed, if it is listed under one.
    pub subdir: Option<Text>,
    /// The names behind it.
    pub left: NamesLeft,
}

/// Where a task stands.
#[derive(Drop)]
pub enum Stage {
    /// A page of names comes next, above this one.
    Page(AccountReply, Text),
    /// The row of a name comes next.
    Look(Visit),
    /// The header of a shard comes next.
    Count(Visit, Counting),
    /// There was no memory to go on.
    Broken,
    Ended(AccountOutcome),
}

/// What came behind the names that were passed.
#[derive(Drop)]
enum Passed {
    /// No further name is asked for.
    Done,
    /// The page is used up. The last name that was passed.
    Used(Text),
    /// This name is asked for, and is listed under a subdir or by itself.
    Due(BucketName, Option<Text>),
}

/// The stage after an answer, and how many were Moved or Closed.
pub fn next_stage(
    alloc: Global,
    account: &Text,
    asked: &Asked,
    stage: Stage,
    moved: u32,
    reply: Reply,
) -> Result<(Stage, u32), AllocError>
    requires open { IsOpen stage }
    ensures { IfOk result (λ s. s ≡ step_of account.now asked.now stage moved reply) }
{
    match stage {
        Stage::Page(so_far, last) => {
            let left = NamesLeft::new(names_in(alloc, reply));
            let stage = next_name(alloc, asked, so_far, last, left)?;
            Ok((stage, moved))
        }
        Stage::Look(visit) => {
            let stage = stage_by_row(alloc, account, asked, visit, reply.into_row())?;
            Ok((stage, moved))
        }
        Stage::Count(visit, counting) => {
            stage_by_header(alloc, asked, visit, counting, moved, reply.into_stats())
        }
        Stage::Broken | Stage::Ended(_) => unreachable!(),
    }
}

/// The names that an answer shows.
fn names_in(alloc: Global, reply: Reply) -> BucketNames
    ensures { result ≡ names_shown reply }
{
    match reply {
        Reply::Names(names) => names,
        other => {
            drop(other);
            BucketNames::new(alloc)
        }
    }
}

/// The next name that is asked for, behind the last one that was passed; else the next page, or the end.
fn next_name(
    alloc: Global,
    asked: &Asked,
    reply: AccountReply,
    last: Text,
    mut left: NamesLeft,
) -> Result<Stage, AllocError>
    ensures { IfOk result (λ stage. stage ≡ walk asked.now reply last left.is_last left.rest) }
{
    Ok(match pass(alloc, asked, &reply, last, &mut left)? {
        Passed::Done => Stage::Ended(AccountOutcome::Done(reply)),
        Passed::Used(last) => behind_page(reply, last, left.is_last()),
        Passed::Due(name, subdir) => Stage::Look(Visit {
            reply,
            name,
            subdir,
            left,
        }),
    })
}

/// Passes names up to the next one that is asked for.
fn pass(
    alloc: Global,
    asked: &Asked,
    reply: &AccountReply,
    mut last: Text,
    left: &mut NamesLeft,
) -> Result<Passed, AllocError>
    ensures { IfOk result (λ passed. stage_by reply.now left.new passed
        ≡ walk asked.now reply.now last left.old.is_last left.old.rest) }
{
    'names: loop {
        if asked.is_full(reply) {
            return Ok(Passed::Done);
        }
        let Some(name) = left.next() else {
            return Ok(Passed::Used(last));
        };
        match asked.place(alloc, reply, &name)? {
            Place::Past => return Ok(Passed::Done),
            Place::Elsewhere => last = name.into_text(),
            Place::Due(subdir) => return Ok(Passed::Due(name, subdir)),
        }
    }
}

/// The next page, or the end.
fn behind_page(reply: AccountReply, last: Text, is_last: bool) -> Stage
    ensures { result ≡ behind_page reply last is_last }
{
    if is_last {
        Stage::Ended(AccountOutcome::Done(reply))
    } else {
        Stage::Page(reply, last)
    }
}

/// Behind the name of a visit.
fn behind(alloc: Global, asked: &Asked, visit: Visit) -> Result<Stage, AllocError>
    ensures { IfOk result (λ stage. stage ≡ passed asked.now visit.reply visit) }
{
    let Visit {
        reply,
        name,
        left,
        ..
    } = visit;
    next_name(alloc, asked, reply, name.into_text(), left)
}

/// By the row that was read, or that none is.
fn stage_by_row(
    alloc: Global,
    account: &Text,
    asked: &Asked,
    visit: Visit,
    row: Option<Bucket>,
) -> Result<Stage, AllocError>
    ensures { IfOk result (λ stage. stage ≡ after_row account.now asked.now visit row) }
{
    match row {
        Some(row) if row.owner == *account => stage_in(alloc, asked, visit, row),
        _ => behind(alloc, asked, visit),
    }
}

/// By the row of a container of the account.
fn stage_in(
    alloc: Global,
    asked: &Asked,
    mut visit: Visit,
    row: Bucket,
) -> Result<Stage, AllocError>
    ensures { IfOk result (λ stage. stage ≡ after_subdir asked.now visit row visit.subdir) }
{
    match visit.subdir.take() {
        Some(subdir) => {
            drop(row);
            add_subdir(&mut visit.reply, subdir)?;
            behind(alloc, asked, visit)
        }
        None => stage_by_counting(alloc, asked, visit, Counting::new(row)),
    }
}

/// The next shard, or the name behind a container whose shards were all counted.
fn stage_by_counting(
    alloc: Global,
    asked: &Asked,
    visit: Visit,
    counting: Counting,
) -> Result<Stage, AllocError>
    ensures { IfOk result (λ stage. stage ≡ after_header asked.now visit counting) }
{
    if counting.is_open() {
        Ok(Stage::Count(visit, counting))
    } else {
        let Counting { objects, bytes, .. } = counting;
        stage_behind(alloc, asked, visit, objects, bytes)
    }
}

/// Behind a container with these counts.
fn stage_behind(
    alloc: Global,
    asked: &Asked,
    visit: Visit,
    objects: u64,
    bytes: u64,
) -> Result<Stage, AllocError>
    ensures { IfOk result (λ stage. stage
        ≡ passed asked.now (with_container visit.reply visit.name objects bytes) visit) }
{
    let Visit {
        reply,
        name,
        left,
        ..
    } = visit;
    let mut reply = reply;
    add_container(&mut reply, &name, objects, bytes)?;
    next_name(alloc, asked, reply, name.into_text(), left)
}

/// By a shard's header, or that it no longer serves.
fn stage_by_header(
    alloc: Global,
    asked: &Asked,
    visit: Visit,
    counting: Counting,
    moved: u32,
    header: Option<ShardStats>,
) -> Result<(Stage, u32), AllocError>
    ensures { IfOk result (λ s. s ≡ header_step asked.now visit counting moved header) }
{
    match header {
        Some(stats) => {
            let stage = stage_by_counting(alloc, asked, visit, counting.with(stats))?;
            Ok((stage, moved))
        }
        None => {
            drop(counting);
            let moved = moved.saturating_add(1);
            Ok((stage_when_moved(visit, moved), moved))
        }
    }
}

/// After so many answers Moved or Closed.
fn stage_when_moved(visit: Visit, moved: u32) -> Stage
    ensures { result ≡ after_left visit moved }
{
    if moved < MOST_MOVED {
        Stage::Look(visit)
    } else {
        drop(visit);
        Stage::Ended(AccountOutcome::MovedOften)
    }
}
