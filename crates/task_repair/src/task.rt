ghost use Rattle.std.specs.Prelude.{◌≡◌, ◌≤◌, IfOk, IfSome};
ghost use Rattle.realm_door.specs.Turns.{FitsAtFirst};
ghost use Rattle.task_repair.specs.Stages.{IsOpen, step_of};
ghost use Rattle.realm_model.specs.Shown.{row_shown};
ghost use Rattle.task_repair.specs.Tasks.{stage_of, request_of, fits};

use crate::request::RepairRequest;
use crate::stage::{Stage, next_stage};
use object_words::{BucketName, EntryRow, ShardKey};
use realm_door::{Answered, Next, Staged, Taken};
use realm_model::{Op, Reply};
use std::alloc::{AllocError, Global};
use std::mem::replace;
use task_words::{JobOutcome, PAGE_LIMIT};

/// A repair of a container's index: the row is read, and then the pages of each shard by its number. Of each entry of a
/// page that has tags the head is read, and where a tag was due at the clock of the page the entry is suggested by what
/// the head showed. Where a shard no longer serves, the row is read again, and the pages from the first shard on.
#[derive(Drop)]
pub struct RepairTask {
    request: RepairRequest,
    stage: Stage,
    /// How many suggestions were done.
    applied: u64,
}

impl RepairTask {
    /// Stages of a task that made no event.
    pub fn new(zone: u8, bucket: BucketName) -> RepairTask
        ensures request { request_of result ≡ record { zone = zone; bucket = bucket } }
        ensures fits { FitsAtFirst zone (fits result) }
        ensures open { IsOpen (stage_of result) }
    {
        RepairTask {
            request: RepairRequest { zone, bucket },
            stage: Stage::Look,
            applied: 0,
        }
    }

    /// Goes on by the answer to the operation that came next.
    fn go_on(&mut self, alloc: Global, reply: Reply)
        requires open { IsOpen self.old.stage }
        ensures request { self.new.request ≡ self.old.request }
        ensures stage { self.new.stage ≡ (step_of self.old.stage self.old.applied reply).0 }
        ensures some { IfSome (row_shown reply) (λ row. 1 ≤ row.shards) }
        ensures applied { self.new.applied ≡ (step_of self.old.stage self.old.applied reply).1 }
    {
        let stage = replace(&mut self.stage, Stage::Look);
        let (stage, applied) = next_stage(alloc, stage, self.applied, reply);
        drop(replace(&mut self.stage, stage));
        self.applied = applied;
    }
}

/// A copy of a row.
fn copy_of(row: &EntryRow) -> Result<EntryRow, AllocError>
    ensures { IfOk result (λ copy. copy ≡ row.now) }
{
    Ok(EntryRow {
        exists: row.exists,
        size: row.size,
        stamp: row.stamp,
        etag: row.etag,
        kind: row.kind.clone()?,
    })
}

impl Staged for RepairTask {
    ghost use Rattle.std.specs.Prelude.{◌≡◌};
    ghost use Rattle.task_repair.specs.Stages.{IsOver, IsOpen, op_of};
    ghost use Rattle.task_repair.specs.Tasks.{stage_of, request_of, fits};
    ghost use Rattle.task_repair.specs.Repairs.{IsRepairOutcome};
    ghost use Rattle.realm_model.specs.Histories.{account_of};
    ghost use Rattle.realm_model.specs.Owns.{own_events};
    ghost use Rattle.realm_model.specs.Doors.{actor_at};

    type Command = RepairRequest;

    type Outcome = JobOutcome;

    type Rest = ();

    ghost command = { request_of };

    ghost fits = { fits };

    ghost means = { λ request outcome settings d. IsRepairOutcome request outcome
        (account_of settings d.seen (actor_at d)) (own_events d.seen (actor_at d)) };

    ghost is_over = { λ t. IsOver (stage_of t) };

    ghost is_ready = { λ t. IsOpen (stage_of t) };

    ghost op = { λ t. op_of (request_of t) (stage_of t) };

    ghost is_taken = { λ t u rest. (u ≡ t) × IsOpen (stage_of t) };

    fn settle(&mut self) -> Next {
        match &self.stage {
            Stage::Ended(_) => Next::Done,
            _ => Next::Event,
        }
    }

    fn end(&self) -> Option<&JobOutcome> {
        match &self.stage {
            Stage::Ended(outcome) => Some(outcome),
            _ => None,
        }
    }

    fn piece(&self) -> &[u8] {
        &[]
    }

    fn split(&mut self, _alloc: Global) -> Result<Taken<()>, AllocError> {
        let zone = self.request.zone;
        let op = match &self.stage {
            Stage::Look => Op::BucketRead {
                zone,
                name: self.request.bucket.clone()?,
            },
            Stage::Page(pass, after) => Op::Page {
                zone,
                key: pass.key(),
                after: after.clone()?,
                limit: PAGE_LIMIT,
            },
            Stage::Head(pass, _, entry) => Op::HeadRead {
                zone,
                container: pass.row.id,
                name: entry.name.clone()?,
            },
            Stage::Suggest(pass, sheet, entry, shown) => Op::Suggest {
                zone,
                key: pass.key(),
                name: entry.name.clone()?,
                revision: entry.revision,
                seen: sheet.clock(),
                version: shown.version,
                row: copy_of(&shown.row)?,
            },
            Stage::Ended(_) => unreachable!(),
        };
        Ok(Taken { op, rest: () })
    }

    fn take(&mut self, alloc: Global, _rest: (), answered: Answered) {
        drop(answered.back);
        self.go_on(alloc, answered.reply);
    }

    fn waits() {}
}
