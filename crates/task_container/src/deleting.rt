//! Where answers bring a DELETE.
ghost use Rattle.std.specs.Prelude.{◌≡◌};
ghost use Rattle.realm_model.specs.declared.event.Reply.TheVariants.{No};
ghost use Rattle.task_container.specs.Stages.{after_delete_look, after_due, begin_step, clear_look, clear_step, close_or_remove, close_step, closing_stage, release_or_end, release_step, remove_look, remove_step, shut_or_end, shut_step};

use crate::closing::{Closing, Due, next_below};
use crate::outcome::{ContainerOutcome, ContainerRefusal, ContainerReply};
use crate::progress::{Progress, Stage, Tally};
use crate::steps::{MOST_RACED, refuse, stage_when_moved, stage_when_raced};
use object_words::{Bucket, Why};
use realm_model::Reply;
use rgw_types::Text;
use task_words::Refusal;

// ---- The row was read

/// By the row that was read, or that none is.
pub fn stage_to_delete(account: &Text, tally: Tally, row: Option<Bucket>) -> Stage
    ensures { result ≡ after_delete_look account.now tally row }
{
    match row {
        Some(row) => {
            if row.owner == *account {
                closing_stage(tally, row)
            } else {
                drop(row);
                refuse(ContainerRefusal::ByRow(Refusal::NoContainer))
            }
        }
        None => refuse(ContainerRefusal::ByRow(Refusal::NoContainer)),
    }
}

/// A closing begins where no number is set, and goes on where the own one is.
fn closing_stage(tally: Tally, row: Bucket) -> Stage
    ensures { result ≡ closing_stage tally row }
{
    match row.busy {
        None => {
            if row.number < u64::MAX {
                Stage::Begin(row)
            } else {
                drop(row);
                Stage::Look
            }
        }
        Some(busy) => {
            let is_own = match tally.begun {
                Some(own) => own.is_in(&row, busy),
                None => false,
            };
            if is_own {
                close_or_remove(Closing {
                    row,
                    number: busy.number,
                    closed: 0,
                })
            } else {
                drop(row);
                Stage::Ended(ContainerOutcome::Busy { id: busy.number })
            }
        }
    }
}

/// The next shard, or the row once all are closed.
fn close_or_remove(closing: Closing) -> Stage
    ensures { result ≡ close_or_remove closing }
{
    let Closing {
        row,
        number,
        closed,
    } = closing;
    if closed < row.shards.get() {
        Stage::Close(Closing {
            row,
            number,
            closed,
        })
    } else {
        Stage::Remove(Closing {
            row,
            number,
            closed,
        })
    }
}

// ---- The closing

/// The next number was set in the row by the event of this number, or the row is another by now.
pub fn by_begin(row: Bucket, tally: Tally, number: u64, is_done: bool) -> Progress
    ensures { result ≡ begin_step row tally number is_done }
{
    if is_done {
        let closing = Closing::begun(row, number);
        let tally = tally.with_begun(Some(closing.own_number()));
        Progress {
            stage: close_or_remove(closing),
            tally,
        }
    } else {
        drop(row);
        let tally = tally.with_raced();
        Progress {
            stage: stage_when_raced(tally.raced),
            tally,
        }
    }
}

/// A shard was closed, or was not.
pub fn by_close(closing: Closing, tally: Tally, reply: Reply) -> Progress
    ensures { result ≡ close_step closing tally reply }
{
    match reply {
        Reply::Done => Progress {
            stage: close_or_remove(closing.with_closed()),
            tally,
        },
        Reply::No(why) => by_refusal(closing, tally, why),
        other => {
            drop(other);
            Progress {
                stage: Stage::Clear(closing, Due::Fenced),
                tally,
            }
        }
    }
}

/// A shard was not closed.
fn by_refusal(closing: Closing, tally: Tally, why: Why) -> Progress
    ensures { result ≡ close_step closing tally (No why) }
{
    match why {
        Why::Moved { .. } | Why::Closed => {
            drop(closing);
            let tally = tally.with_moved();
            Progress {
                stage: stage_when_moved(tally.moved),
                tally,
            }
        }
        Why::NotEmpty { name } => Progress {
            stage: Stage::Clear(closing, Due::NotEmpty(name)),
            tally,
        },
        Why::Unsettled { name } => Progress {
            stage: Stage::Clear(closing, Due::Unsettled(name)),
            tally,
        },
        Why::Held { id } => Progress {
            stage: Stage::Clear(closing, Due::Held(id)),
            tally,
        },
        other => {
            drop(other);
            Progress {
                stage: Stage::Clear(closing, Due::Fenced),
                tally,
            }
        }
    }
}

// ---- The removal

/// The row was taken away, or is another by now.
pub fn by_remove(closing: Closing, tally: Tally, is_done: bool) -> Progress
    ensures { result ≡ remove_step closing tally is_done }
{
    if is_done {
        let Closing { row, .. } = closing;
        Progress {
            stage: shut_or_end(row, 0),
            tally,
        }
    } else {
        let tally = tally.with_raced();
        Progress {
            stage: if tally.raced < MOST_RACED {
                Stage::LookToRemove(closing)
            } else {
                drop(closing);
                Stage::Ended(ContainerOutcome::RacedOften)
            },
            tally,
        }
    }
}

/// The row was read again: it is taken away where the own number is still set in it.
pub fn stage_to_remove(account: &Text, closing: Closing, tally: Tally, row: Option<Bucket>) -> Stage
    ensures { result ≡ remove_look account.now closing tally row }
{
    match row {
        Some(row) => {
            if row.owner == *account && closing.is_still(&row) {
                Stage::Remove(closing.with_row(row))
            } else {
                drop(closing);
                stage_to_delete(account, tally, Some(row))
            }
        }
        None => {
            drop(closing);
            stage_to_delete(account, tally, None)
        }
    }
}

/// A shard was shut.
pub fn by_shut(row: Bucket, shard: u32) -> Stage
    ensures { result ≡ shut_step row shard }
{
    let shard = next_below(shard, row.shards.get());
    shut_or_end(row, shard)
}

/// The next shard, or the end once all were shut.
fn shut_or_end(row: Bucket, shard: u32) -> Stage
    ensures { result ≡ shut_or_end row shard }
{
    if shard < row.shards.get() {
        Stage::Shut { row, shard }
    } else {
        drop(row);
        Stage::Ended(ContainerOutcome::Done(ContainerReply::Removed))
    }
}

// ---- The closing is given up

/// The number was cleared, or the row is another by now.
pub fn by_clear(closing: Closing, due: Due, tally: Tally, is_done: bool) -> Progress
    ensures { result ≡ clear_step closing due tally is_done }
{
    if is_done {
        Progress {
            stage: release_or_end(closing, 0, due),
            tally: tally.with_begun(None),
        }
    } else {
        let tally = tally.with_raced();
        Progress {
            stage: if tally.raced < MOST_RACED {
                Stage::LookToClear(closing, due)
            } else {
                drop(closing);
                drop(due);
                Stage::Ended(ContainerOutcome::RacedOften)
            },
            tally,
        }
    }
}

/// The row was read again: the number is cleared where it is still set; else nothing is left to clear.
pub fn stage_to_clear(
    account: &Text,
    closing: Closing,
    due: Due,
    tally: Tally,
    row: Option<Bucket>,
) -> Stage
    ensures { result ≡ clear_look account.now closing due tally row }
{
    match row {
        Some(row) => {
            if closing.is_still(&row) {
                Stage::Clear(closing.with_row(row), due)
            } else if matches!(due, Due::Fenced) {
                drop(closing);
                drop(due);
                stage_to_delete(account, tally, Some(row))
            } else if closing.has_ended(&row) {
                drop(row);
                release_or_end(closing, 0, due)
            } else {
                drop(row);
                drop(closing);
                stage_after_due(due)
            }
        }
        None => {
            drop(closing);
            if matches!(due, Due::Fenced) {
                drop(due);
                stage_to_delete(account, tally, None)
            } else {
                stage_after_due(due)
            }
        }
    }
}

/// A shard was released.
pub fn by_release(closing: Closing, shard: u32, due: Due) -> Stage
    ensures { result ≡ release_step closing shard due }
{
    let shard = next_below(shard, closing.closed);
    release_or_end(closing, shard, due)
}

/// The next of the shards that were closed, or what is due once all were released.
fn release_or_end(closing: Closing, shard: u32, due: Due) -> Stage
    ensures { result ≡ release_or_end closing shard due }
{
    if shard < closing.closed {
        Stage::Release {
            closing,
            shard,
            due,
        }
    } else {
        drop(closing);
        stage_after_due(due)
    }
}

/// What is due.
fn stage_after_due(due: Due) -> Stage
    ensures { result ≡ after_due due }
{
    match due {
        Due::NotEmpty(name) => refuse(ContainerRefusal::NotEmpty { name }),
        Due::Unsettled(name) => refuse(ContainerRefusal::Unsettled { name }),
        Due::Held(id) => Stage::Ended(ContainerOutcome::Busy { id }),
        Due::Fenced => Stage::Look,
    }
}
