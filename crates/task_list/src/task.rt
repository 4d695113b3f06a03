ghost use Rattle.std.specs.Prelude.{◌≡◌, ◌⊎◌, None, option_copied};
ghost use Rattle.realm_door.specs.Turns.{FitsAtFirst};
ghost use Rattle.task_list.specs.declared.stage.Stage.TheVariants.{Broken as broken, Look as looking};
ghost use Rattle.task_list.specs.Tasks.{IsOver, is_broken, ended_in, IsGoing, IsSound, Takes, TakesTold, request_of, stage_of, fits};

use crate::request::ListRequest;
use crate::stage::{Stage, next_stage};
use object_words::ShardKey;
use realm_door::{Answered, Next, Staged, Taken};
use realm_model::{Op, Reply};
use rgw_types::Text;
use std::alloc::{AllocError, Global};
use std::mem::replace;
use task_words::{Outcome, PAGE_LIMIT};

/// A request for a listing: the row is read, then a page of each shard by its number, and then, by rising
/// name, the head of each name that a change is under way of, behind it a suggestion where the entry had a
/// tag due at its page, and the next page of each shard whose page is used up. Where a shard no longer serves, the row
/// is read again, and the pages of all shards above the last name that was settled.
#[derive(Drop)]
pub struct ListTask {
    request: ListRequest,
    stage: Stage,
    /// How many answers were Moved or Closed.
    moved: u32,
}

impl ListTask {
    /// Stages of a task that made no event.
    pub fn new(request: ListRequest) -> ListTask
        ensures request { request_of result ≡ request }
        ensures fits { FitsAtFirst request.zone (fits result) }
        ensures open { IsOver (stage_of result) → ⊥ }
        ensures looks { stage_of result ≡ looking None }
    {
        ListTask {
            request,
            stage: Stage::Look(None),
            moved: 0,
        }
    }

    /// Whether there was no memory to go on.
    pub fn is_broken(&self) -> bool
        ensures { result ≡ is_broken (stage_of self.now) }
    {
        matches!(self.stage, Stage::Broken)
    }

    /// The outcome, once it is there.
    pub fn ended(&self) -> Option<&Outcome>
        ensures { option_copied result ≡ ended_in (stage_of self.now) }
    {
        match &self.stage {
            Stage::Ended(outcome) => Some(outcome),
            _ => None,
        }
    }

    /// Goes on by the answer to the operation that came next.
    fn go_on(&mut self, alloc: Global, reply: Reply)
        requires going { IsGoing self.old.stage }
        ensures request { self.new.request ≡ self.old.request }
        ensures taken { (self.new.stage ≡ broken)
            ⊎ Takes self.old.request self.old.stage self.old.moved reply self.new.stage self.new.moved }
        ensures told { (self.new.stage ≡ broken) ⊎ TakesTold self.old.stage reply self.new.stage }
        ensures sound { IsSound self.new.stage }
    {
        let stage = replace(&mut self.stage, Stage::Broken);
        if let Ok((stage, moved)) = next_stage(alloc, &self.request, stage, self.moved, reply) {
            drop(replace(&mut self.stage, stage));
            self.moved = moved;
        }
    }
}

impl Staged for ListTask {
    ghost use Rattle.std.specs.Prelude.{◌≡◌};
    ghost use Rattle.task_list.specs.Tasks.{IsOver, IsGoing, op_of, stage_of, request_of, fits, Steps};
    ghost use Rattle.task_list.specs.Listed.{IsListOutcome};
    ghost use Rattle.realm_model.specs.Histories.{account_of};
    ghost use Rattle.realm_model.specs.Owns.{own_events};
    ghost use Rattle.realm_model.specs.Doors.{actor_at};

    type Command = ListRequest;

    type Outcome = Outcome;

    type Rest = ();

    ghost command = { request_of };

    ghost fits = { fits };

    ghost means = { λ request outcome settings d. IsListOutcome request outcome
        (account_of settings d.seen (actor_at d)) (own_events d.seen (actor_at d)) };

    ghost is_over = { λ t. IsOver (stage_of t) };

    ghost is_ready = { λ t. IsOver (stage_of t) → ⊥ };

    ghost op = { λ t. op_of (request_of t) (stage_of t) };

    ghost is_taken = { λ t u rest. (u ≡ t) × IsGoing (stage_of t) };

    ghost steps = { Steps };

    #[tactic(auto, using(crate::proofs::Turning::is_open))]
    fn settle(&mut self) -> Next {
        match &self.stage {
            Stage::Ended(_) => Next::Done,
            _ => Next::Event,
        }
    }

    fn end(&self) -> Option<&Outcome> {
        self.ended()
    }

    fn piece(&self) -> &[u8] {
        &[]
    }

    #[tactic(auto, using(crate::proofs::Turning::may_step))]
    fn split(&mut self, _alloc: Global) -> Result<Taken<()>, AllocError> {
        let zone = self.request.zone;
        let op = match &self.stage {
            Stage::Look(_) => Op::BucketRead {
                zone,
                name: self.request.command.container.clone()?,
            },
            Stage::Page(merging, next) => Op::Page {
                zone,
                key: ShardKey {
                    container: merging.row.id,
                    instance: merging.row.instance,
                    shard: next.shard,
                },
                after: next.after.clone()?,
                limit: PAGE_LIMIT,
            },
            Stage::Head(merging, wanted) => Op::HeadRead {
                zone,
                container: merging.row.id,
                name: wanted.name.clone()?,
            },
            Stage::Suggest(merging, suggestion) => suggestion.op(zone, &merging.row)?,
            Stage::Broken => return Err(AllocError),
            Stage::Ended(_) => unreachable!(),
        };
        Ok(Taken { op, rest: () })
    }

    fn take(&mut self, alloc: Global, _rest: (), answered: Answered) {
        drop(answered.back);
        self.go_on(alloc, answered.reply);
    }

    fn waits() {}
}
