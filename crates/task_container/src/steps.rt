//! Where answers bring a task.
ghost use Rattle.std.specs.Prelude.{◌≡◌, option_copied};
ghost use Rattle.task_container.specs.Stages.{IsOpen, after_header, after_left, after_look, after_post_look, after_put_look, after_race, counts_or_refuses, changed_reply, header_step, is_done, making_stage, refuses, shard_step, step_of, swap_step};

use crate::counting::Counting;
use crate::deleting::{
    by_begin, by_clear, by_close, by_release, by_remove, by_shut, stage_to_clear, stage_to_delete,
    stage_to_remove,
};
use crate::outcome::{ContainerOutcome, ContainerRefusal, ContainerReply};
use crate::progress::{Progress, Stage, Tally};
use crate::request::{ContainerChanges, ContainerCommand, ContainerRequest};
use object_words::{Bucket, ShardStats};
use realm_model::Reply;
use rgw_types::Text;
use swift_auth::Deed;
use task_words::{Asker, MOST_MOVED, Refusal};

/// A request ends with its answer Raced of this number.
pub const MOST_RACED: u32 = 16;

/// Where the answer to the operation that came next brings the task, by an event of this number.
pub fn next(
    request: &ContainerRequest,
    shards: u32,
    progress: Progress,
    number: u64,
    reply: Reply,
) -> Progress
    requires open { IsOpen progress.stage }
    ensures { result ≡ step_of request.now shards progress number reply }
{
    let Progress { stage, tally } = progress;
    let tally = tally.with_event(number);
    match stage {
        Stage::Look => Progress {
            stage: stage_by_row(request, shards, tally, reply.into_row()),
            tally,
        },
        Stage::Count(counting) => by_header(counting, tally, reply.into_stats()),
        Stage::MakeShard => {
            drop(reply);
            by_shard(shards, tally)
        }
        Stage::Make => by_swap(is_done(reply), ContainerReply::Made, tally),
        Stage::Change(row) => {
            drop(row);
            by_swap(is_done(reply), changed_reply(&request.command), tally)
        }
        Stage::Begin(row) => by_begin(row, tally, number, is_done(reply)),
        Stage::Close(closing) => by_close(closing, tally, reply),
        Stage::Remove(closing) => by_remove(closing, tally, is_done(reply)),
        Stage::LookToRemove(closing) => {
            let row = reply.into_row();
            Progress {
                stage: stage_to_remove(&request.asker.account, closing, tally, row),
                tally,
            }
        }
        Stage::Shut { row, shard } => {
            drop(reply);
            Progress {
                stage: by_shut(row, shard),
                tally,
            }
        }
        Stage::Clear(closing, due) => by_clear(closing, due, tally, is_done(reply)),
        Stage::LookToClear(closing, due) => {
            let row = reply.into_row();
            Progress {
                stage: stage_to_clear(&request.asker.account, closing, due, tally, row),
                tally,
            }
        }
        Stage::Release {
            closing,
            shard,
            due,
        } => {
            drop(reply);
            Progress {
                stage: by_release(closing, shard, due),
                tally,
            }
        }
        Stage::Ended(_) => unreachable!(),
    }
}

/// Whether nothing but that it was done is told.
fn is_done(reply: Reply) -> bool
    ensures { result ≡ is_done reply }
{
    let done = matches!(reply, Reply::Done);
    drop(reply);
    done
}

/// The reply where the row was changed.
fn changed_reply(command: &ContainerCommand) -> ContainerReply
    ensures { result ≡ changed_reply command.now }
{
    match command {
        ContainerCommand::Put { .. } => ContainerReply::Accepted,
        _ => ContainerReply::Changed,
    }
}

// ---- The row was read

/// By the row that was read, or that none is.
fn stage_by_row(request: &ContainerRequest, shards: u32, tally: Tally, row: Option<Bucket>) -> Stage
    ensures { result ≡ after_look request.now shards tally row }
{
    match &request.command {
        ContainerCommand::Head { .. } => count_or_refuse(&request.asker, row),
        ContainerCommand::Put { changes, .. } => match row {
            Some(row) => stage_by_own_row(&request.asker.account, changes, row),
            None => making_stage(shards, tally),
        },
        ContainerCommand::Post { .. } => stage_to_change(&request.asker.account, row),
        ContainerCommand::Delete { .. } => stage_to_delete(&request.asker.account, tally, row),
    }
}

/// A HEAD by the row that was read.
fn count_or_refuse(asker: &Asker, row: Option<Bucket>) -> Stage
    ensures { result ≡ counts_or_refuses asker.now row }
{
    match asker.refusal(row.as_ref(), Deed::ListContainer) {
        Some(refusal) => {
            drop(row);
            refuse(ContainerRefusal::ByRow(refusal))
        }
        None => match row {
            Some(row) => stage_by_counting(Counting::new(row)),
            None => unreachable!(),
        },
    }
}

/// It is refused so.
pub fn refuse(refusal: ContainerRefusal) -> Stage
    ensures { result ≡ refuses refusal }
{
    Stage::Ended(ContainerOutcome::Done(ContainerReply::Refused(refusal)))
}

/// A PUT where there is a row.
fn stage_by_own_row(account: &Text, changes: &ContainerChanges, row: Bucket) -> Stage
    ensures { result ≡ after_put_look account.now changes.now row }
{
    if row.owner != *account {
        drop(row);
        refuse(ContainerRefusal::NotYours)
    } else if changes.is_none() {
        drop(row);
        Stage::Ended(ContainerOutcome::Done(ContainerReply::Accepted))
    } else {
        Stage::Change(row)
    }
}

/// A POST by the row that was read.
fn stage_to_change(account: &Text, row: Option<Bucket>) -> Stage
    ensures { result ≡ after_post_look account.now row }
{
    match row {
        Some(row) => {
            if row.owner == *account {
                Stage::Change(row)
            } else {
                drop(row);
                refuse(ContainerRefusal::ByRow(Refusal::NoContainer))
            }
        }
        None => refuse(ContainerRefusal::ByRow(Refusal::NoContainer)),
    }
}

/// The next shard, or the row once all were made.
fn making_stage(shards: u32, tally: Tally) -> Stage
    ensures { result ≡ making_stage shards tally }
{
    if tally.made < shards {
        Stage::MakeShard
    } else {
        Stage::Make
    }
}

// ---- A shard was made, a row was swapped

/// One shard more was made.
fn by_shard(shards: u32, tally: Tally) -> Progress
    ensures { result ≡ shard_step shards tally }
{
    let tally = tally.with_made();
    Progress {
        stage: making_stage(shards, tally),
        tally,
    }
}

/// The row was swapped, or is another by now.
fn by_swap(is_done: bool, reply: ContainerReply, tally: Tally) -> Progress
    ensures { result ≡ swap_step is_done reply tally }
{
    if is_done {
        Progress {
            stage: Stage::Ended(ContainerOutcome::Done(reply)),
            tally,
        }
    } else {
        drop(reply);
        let tally = tally.with_raced();
        Progress {
            stage: stage_when_raced(tally.raced),
            tally,
        }
    }
}

/// After so many answers Raced.
pub fn stage_when_raced(raced: u32) -> Stage
    ensures { result ≡ after_race raced }
{
    if raced < MOST_RACED {
        Stage::Look
    } else {
        Stage::Ended(ContainerOutcome::RacedOften)
    }
}

// ---- A header was read

/// By a shard's header, or that it no longer serves.
fn by_header(counting: Counting, tally: Tally, header: Option<ShardStats>) -> Progress
    ensures { result ≡ header_step counting tally header }
{
    match header {
        Some(stats) => Progress {
            stage: stage_by_counting(counting.with(stats)),
            tally,
        },
        None => {
            drop(counting);
            let tally = tally.with_moved();
            Progress {
                stage: stage_when_moved(tally.moved),
                tally,
            }
        }
    }
}

/// The next shard, or the counts of all.
fn stage_by_counting(counting: Counting) -> Stage
    ensures { result ≡ after_header counting }
{
    let Counting {
        row,
        next,
        objects,
        bytes,
    } = counting;
    if next < row.shards.get() {
        Stage::Count(Counting {
            row,
            next,
            objects,
            bytes,
        })
    } else {
        Stage::Ended(ContainerOutcome::Done(ContainerReply::Counted {
            row,
            objects,
            bytes,
        }))
    }
}

/// After so many answers Moved or Closed.
pub fn stage_when_moved(moved: u32) -> Stage
    ensures { result ≡ after_left moved }
{
    if moved < MOST_MOVED {
        Stage::Look
    } else {
        Stage::Ended(ContainerOutcome::MovedOften)
    }
}
