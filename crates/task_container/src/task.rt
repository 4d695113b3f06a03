ghost use Rattle.std.specs.Prelude.{◌≡◌, ◌≤◌, [], true, IfOk};
ghost use Rattle.object_words.specs.Limits.{is_name, shard_limit};
ghost use Rattle.realm_model.specs.Settings.{SettingsView, IsSettings};
ghost use Rattle.realm_model.specs.Accounts.{blank};
ghost use Rattle.realm_model.specs.Doors.{DoorView, actor_at};
ghost use Rattle.realm_model.specs.Histories.{account_of};
ghost use Rattle.realm_model.specs.Owns.{own_events};
ghost use Rattle.task_container.specs.Requests.{name_of};
ghost use Rattle.task_container.specs.Stages.{IsOpen, op_of, step_of, swap_op};
ghost use Rattle.task_container.specs.Fits.{stage_of, request_of, fits};

use crate::outcome::ContainerOutcome;
use crate::progress::{Progress, Stage, Tally};
use crate::request::ContainerRequest;
use crate::rows::{changed, cleared_row, closing_row, new_row};
use crate::steps::next;
use object_words::{Bucket, ShardCount, ShardKey};
use realm_door::{Answered, Next, Staged, Taken};
use realm_model::{Op, Reply, Settings};
use std::alloc::{AllocError, Global};
use std::mem::replace;

/// A request for a container as its stages: which event comes next follows from the answers to those before.
#[derive(Drop)]
pub struct ContainerTask {
    request: ContainerRequest,
    /// How many shards a new container has.
    shards: ShardCount,
    progress: Progress,
}

impl ContainerTask {
    /// Stages of a task that made no event. A new container has the settings' number of shards.
    pub fn new(settings: &Settings, request: ContainerRequest) -> ContainerTask
        ensures request { request_of result ≡ request }
        ensures fits { (d : DoorView) → 1 ≤ request.zone → request.zone ≤ settings.now.zones
            → account_of settings.now d.seen (actor_at d) ≡ blank → own_events d.seen (actor_at d) ≡ []
            → fits result settings.now d }
        ensures open { IsOpen (stage_of result) }
    {
        let shards = shards_of(settings);
        has_name(&request);
        ContainerTask {
            request,
            shards,
            progress: Progress {
                stage: Stage::Look,
                tally: Tally {
                    first: None,
                    made: 0,
                    moved: 0,
                    raced: 0,
                    begun: None,
                },
            },
        }
    }

    /// Goes on by the answer to the operation that came next, by an event of this number.
    fn go_on(&mut self, number: u64, reply: Reply)
        requires open { IsOpen self.old.progress.stage }
        ensures request { self.new.request ≡ self.old.request }
        ensures shards { self.new.shards ≡ self.old.shards }
        ensures progress { self.new.progress ≡ step_of self.old.request self.old.shards self.old.progress number reply }
    {
        let tally = self.progress.tally;
        let nowhere = Progress {
            stage: Stage::Look,
            tally,
        };
        let progress = replace(&mut self.progress, nowhere);
        let progress = next(&self.request, self.shards.get(), progress, number, reply);
        drop(replace(&mut self.progress, progress));
    }
}

/// How many shards a new container has.
fn shards_of(settings: &Settings) -> ShardCount
    ensures shards { result ≡ settings.now.shards }
    ensures bounds { IsSettings settings.now }
{
    let Some(shards) = ShardCount::new(settings.shards) else {
        unreachable!();
    };
    shards
}

/// The name is within its limits. It does nothing: it tells it to the proofs of its callers.
fn has_name(request: &ContainerRequest)
    ensures { is_name 256 (name_of request.now.command) ≡ true }
{
    let _text = request.command.name().as_text();
}

/// The operation that comes next.
fn op_of(
    alloc: Global,
    request: &ContainerRequest,
    shards: ShardCount,
    progress: &Progress,
) -> Result<Op, AllocError>
    requires open { IsOpen progress.now.stage }
    ensures { IfOk result (λ op. op ≡ op_of request.now shards progress.now) }
{
    let id = progress.tally.id();
    match &progress.stage {
        Stage::Look => Ok(Op::BucketRead {
            zone: request.looked_zone(),
            name: request.command.name().clone()?,
        }),
        Stage::Count(counting) => Ok(Op::Stats {
            zone: request.zone,
            key: counting.key(),
        }),
        Stage::MakeShard => Ok(Op::ShardMake {
            zone: 1,
            key: ShardKey {
                container: id,
                instance: id,
                shard: progress.tally.made,
            },
        }),
        Stage::Make => {
            let row = new_row(alloc, request, shards, id)?;
            swap(request, 0, Some(row))
        }
        Stage::Change(row) => {
            let new = changed(alloc, row, &request.command)?;
            swap(request, row.version, Some(new))
        }
        Stage::Begin(row) => swap(request, row.version, Some(closing_row(alloc, row)?)),
        Stage::Close(closing) => Ok(Op::CloseShard {
            zone: 1,
            key: closing.key(closing.closed),
            id: closing.number,
            force: false,
        }),
        Stage::Remove(closing) => swap(request, closing.row.version, None),
        Stage::LookToRemove(_) | Stage::LookToClear(..) => Ok(Op::BucketRead {
            zone: 1,
            name: request.command.name().clone()?,
        }),
        Stage::Shut { row, shard } => Ok(Op::Shut {
            zone: 1,
            key: ShardKey {
                container: row.id,
                instance: row.instance,
                shard: *shard,
            },
        }),
        Stage::Clear(closing, _) => {
            let new = cleared_row(alloc, &closing.row)?;
            swap(request, closing.row.version, Some(new))
        }
        Stage::Release { closing, shard, .. } => Ok(Op::Release {
            zone: 1,
            key: closing.key(*shard),
            id: closing.number,
        }),
        Stage::Ended(_) => unreachable!(),
    }
}

/// A swap of the container's row in zone 1.
fn swap(request: &ContainerRequest, expected: u64, new: Option<Bucket>) -> Result<Op, AllocError>
    ensures { IfOk result (λ op. op ≡ swap_op request.now expected new) }
{
    let name = request.command.name().clone()?;
    Ok(Op::BucketSwap {
        zone: 1,
        name,
        expected,
        new,
    })
}

impl Staged for ContainerTask {
    ghost use Rattle.std.specs.Prelude.{◌≡◌};
    ghost use Rattle.task_container.specs.Stages.{IsOver, IsOpen, op_of};
    ghost use Rattle.task_container.specs.Fits.{stage_of, request_of, next_op, fits};
    ghost use Rattle.task_container.specs.Ends.{IsContainerEnd};
    ghost use Rattle.realm_model.specs.Histories.{account_of};
    ghost use Rattle.realm_model.specs.Owns.{own_events};
    ghost use Rattle.realm_model.specs.Doors.{actor_at};

    type Command = ContainerRequest;

    type Outcome = ContainerOutcome;

    type Rest = ();

    ghost command = { request_of };

    ghost fits = { fits };

    ghost means = { λ request outcome settings d. IsContainerEnd request outcome settings
        (account_of settings d.seen (actor_at d)) (own_events d.seen (actor_at d)) };

    ghost is_over = { λ t. IsOver (stage_of t) };

    ghost is_ready = { λ t. IsOpen (stage_of t) };

    ghost op = { next_op };

    ghost is_taken = { λ t u rest. (u ≡ t) × IsOpen (stage_of t) };

    fn settle(&mut self) -> Next {
        match &self.progress.stage {
            Stage::Ended(_) => Next::Done,
            _ => Next::Event,
        }
    }

    fn end(&self) -> Option<&ContainerOutcome> {
        match &self.progress.stage {
            Stage::Ended(outcome) => Some(outcome),
            _ => None,
        }
    }

    fn piece(&self) -> &[u8] {
        &[]
    }

    #[tactic(auto, using(crate::proofs::Turning::may_go))]
    fn split(&mut self, alloc: Global) -> Result<Taken<()>, AllocError> {
        let op = op_of(alloc, &self.request, self.shards, &self.progress)?;
        Ok(Taken { op, rest: () })
    }

    fn take(&mut self, _alloc: Global, _rest: (), answered: Answered) {
        drop(answered.back);
        self.go_on(answered.number, answered.reply);
    }

    fn waits() {}
}
