//! The rows that requests make.
ghost use Rattle.std.specs.Prelude.{◌≡◌, IfOk, Some, None};
ghost use Rattle.task_container.specs.Requests.{changes_of};
ghost use Rattle.task_container.specs.Closings.{cleared_row, closing_row, with_number};
ghost use Rattle.task_container.specs.Rows.{changed, list_after, new_row};

use crate::merging::merge;
use crate::request::{ContainerChanges, ContainerCommand, ContainerRequest};
use object_words::{Bucket, Busy, ShardCount};
use rgw_types::{Pairs, Text};
use std::alloc::{AllocError, Global};

/// The row of a new container with what was sent.
pub fn new_row(
    alloc: Global,
    request: &ContainerRequest,
    shards: ShardCount,
    id: u64,
) -> Result<Bucket, AllocError>
    ensures { IfOk result (λ row. row ≡ new_row request.now shards id) }
{
    let bare = Bucket {
        id,
        owner: request.asker.account.clone()?,
        version: 0,
        shared: 0,
        number: 0,
        busy: None,
        instance: id,
        shards,
        meta: Pairs::new(alloc),
        readers: Text::new(alloc),
        writers: Text::new(alloc),
    };
    changed(alloc, &bare, &request.command)
}

/// The row with what was sent, if anything was.
pub fn changed(
    alloc: Global,
    row: &Bucket,
    command: &ContainerCommand,
) -> Result<Bucket, AllocError>
    ensures { IfOk result (λ new. new ≡ changed row.now (changes_of command.now)) }
{
    match command.changes() {
        Some(changes) => with_changes(alloc, row, changes),
        None => copy(alloc, row),
    }
}

/// The row with the next number, for a closing.
pub fn closing_row(alloc: Global, row: &Bucket) -> Result<Bucket, AllocError>
    ensures { IfOk result (λ new. new ≡ closing_row row.now) }
{
    let copy = copy(alloc, row)?;
    let number = row.number.saturating_add(1);
    let busy = Some(Busy {
        number,
        closing: true,
    });
    Ok(with_number(copy, number, busy))
}

/// The row without the number that is set.
pub fn cleared_row(alloc: Global, row: &Bucket) -> Result<Bucket, AllocError>
    ensures { IfOk result (λ new. new ≡ cleared_row row.now) }
{
    Ok(with_number(copy(alloc, row)?, row.number, None))
}

fn with_number(row: Bucket, number: u64, busy: Option<Busy>) -> Bucket
    ensures { result ≡ with_number row number busy }
{
    let Bucket {
        id,
        owner,
        version,
        shared,
        instance,
        shards,
        meta,
        readers,
        writers,
        ..
    } = row;
    Bucket {
        id,
        owner,
        version,
        shared,
        number,
        busy,
        instance,
        shards,
        meta,
        readers,
        writers,
    }
}

fn with_changes(
    alloc: Global,
    row: &Bucket,
    changes: &ContainerChanges,
) -> Result<Bucket, AllocError>
    ensures { IfOk result (λ new. new ≡ changed row.now (Some changes.now)) }
{
    let meta = merge(alloc, &row.meta, &changes.meta)?;
    let readers = list_after(&row.readers, &changes.readers)?;
    let writers = list_after(&row.writers, &changes.writers)?;
    Ok(Bucket {
        id: row.id,
        owner: row.owner.clone()?,
        version: row.version,
        shared: row.shared,
        number: row.number,
        busy: row.busy,
        instance: row.instance,
        shards: row.shards,
        meta,
        readers,
        writers,
    })
}

/// A copy of the row.
fn copy(alloc: Global, row: &Bucket) -> Result<Bucket, AllocError>
    ensures { IfOk result (λ copy. copy ≡ row.now) }
{
    let none = Pairs::new(alloc);
    Ok(Bucket {
        id: row.id,
        owner: row.owner.clone()?,
        version: row.version,
        shared: row.shared,
        number: row.number,
        busy: row.busy,
        instance: row.instance,
        shards: row.shards,
        meta: merge(alloc, &row.meta, &none)?,
        readers: row.readers.clone()?,
        writers: row.writers.clone()?,
    })
}

/// The list that was sent, else the kept one.
fn list_after(kept: &Text, sent: &Option<Text>) -> Result<Text, AllocError>
    ensures { IfOk result (λ list. list ≡ list_after kept.now sent.now) }
{
    match sent {
        Some(list) => list.clone(),
        None => kept.clone(),
    }
}
