ghost use Rattle.std.specs.Prelude.{◌≡◌, ◌⊎◌, IfOk};
ghost use Rattle.realm_door.specs.Turns.{FitsAtFirst};
ghost use Rattle.task_account.specs.declared.stage.Stage.TheVariants.{Broken as broken};
ghost use Rattle.task_account.specs.Stages.{IsOpen, step_of};
ghost use Rattle.task_account.specs.Tasks.{request_of, stage_of, fits};

use crate::AccountOutcome;
use crate::asked::Asked;
use crate::request::AccountRequest;
use crate::stage::{Stage, next_stage};
use realm_door::{Answered, Next, Staged, Taken};
use realm_model::{Op, Reply};
use rgw_types::Text;
use std::alloc::{AllocError, Global};
use std::mem::replace;
use task_words::PAGE_LIMIT;

/// A request for an account: a page of the names of its containers is read, and then of each name that is asked for its
/// row and, where that is of the account, the header of each of its shards by rising number; then the next page. A name
/// that is listed under a subdir needs no headers, and none at all where the last row is its subdir. Where a shard no
/// longer serves, the row is read again, and the counts of the container begin again.
#[derive(Drop)]
pub struct AccountTask {
    zone: u8,
    account: Text,
    asked: Asked,
    stage: Stage,
    /// How many answers were Moved or Closed.
    moved: u32,
}

impl AccountTask {
    /// Stages of a task that made no event. It fails only for want of memory.
    pub fn new(alloc: Global, request: AccountRequest) -> Result<AccountTask, AllocError>
        ensures request { IfOk result (λ t. request_of t ≡ request) }
        ensures fits { IfOk result (λ t. FitsAtFirst request.zone (fits t)) }
        ensures open { IfOk result (λ t. IsOpen (stage_of t)) }
    {
        let AccountRequest {
            zone,
            account,
            command,
        } = request;
        let asked = Asked::new(alloc, command)?;
        let start = asked.start(alloc)?;
        let stage = Stage::Page(asked.nothing(alloc), start);
        Ok(AccountTask {
            zone,
            account,
            asked,
            stage,
            moved: 0,
        })
    }

    /// Goes on by the answer to the operation that came next.
    fn go_on(&mut self, alloc: Global, reply: Reply)
        requires open { IsOpen self.old.stage }
        ensures zone { self.new.zone ≡ self.old.zone }
        ensures account { self.new.account ≡ self.old.account }
        ensures asked { self.new.asked ≡ self.old.asked }
        ensures stage { (self.new.stage ≡ broken) ⊎ ((self.new.stage, self.new.moved)
            ≡ step_of self.old.account self.old.asked self.old.stage self.old.moved reply) }
    {
        let stage = replace(&mut self.stage, Stage::Broken);
        let next = next_stage(alloc, &self.account, &self.asked, stage, self.moved, reply);
        if let Ok((stage, moved)) = next {
            drop(replace(&mut self.stage, stage));
            self.moved = moved;
        }
    }
}

impl Staged for AccountTask {
    ghost use Rattle.std.specs.Prelude.{◌≡◌};
    ghost use Rattle.task_account.specs.Stages.{IsOver, IsOpen, op_of};
    ghost use Rattle.task_account.specs.Tasks.{IsAccountEnd, stage_of, request_of, fits, Steps};
    ghost use Rattle.realm_model.specs.Histories.{account_of};
    ghost use Rattle.realm_model.specs.Owns.{own_events};
    ghost use Rattle.realm_model.specs.Doors.{actor_at};

    type Command = AccountRequest;

    type Outcome = AccountOutcome;

    type Rest = ();

    ghost command = { request_of };

    ghost fits = { fits };

    ghost means = { λ request outcome settings d. IsAccountEnd request outcome
        (account_of settings d.seen (actor_at d)) (own_events d.seen (actor_at d)) };

    ghost is_over = { λ t. IsOver (stage_of t) };

    ghost is_ready = { λ t. IsOver (stage_of t) → ⊥ };

    ghost op = { λ t. op_of t.zone t.account (stage_of t) };

    ghost is_taken = { λ t u rest. (u ≡ t) × IsOpen (stage_of t) };

    ghost steps = { Steps };

    #[tactic(auto, using(crate::proofs::Turning::is_open))]
    fn settle(&mut self) -> Next {
        match &self.stage {
            Stage::Ended(_) => Next::Done,
            _ => Next::Event,
        }
    }

    fn end(&self) -> Option<&AccountOutcome> {
        match &self.stage {
            Stage::Ended(outcome) => Some(outcome),
            _ => None,
        }
    }

    fn piece(&self) -> &[u8] {
        &[]
    }

    #[tactic(auto, using(crate::proofs::Turning::may_step))]
    fn split(&mut self, _alloc: Global) -> Result<Taken<()>, AllocError> {
        let zone = self.zone;
        let op = match &self.stage {
            Stage::Page(_, last) => Op::AccountPage {
                zone,
                account: self.account.clone()?,
                after: last.clone()?,
                limit: PAGE_LIMIT,
            },
            Stage::Look(visit) => Op::BucketRead {
                zone,
                name: visit.name.clone()?,
            },
            Stage::Count(_, counting) => Op::Stats {
                zone,
                key: counting.key(),
            },
            Stage::Broken => return Err(AllocError),
            Stage::Ended(_) => unreachable!(),
        };
        Ok(Taken { op, rest: () })
    }

    fn take(&mut self, alloc: Global, _rest: (), answered: Answered) {
        drop(answered.back);
        self.go_on(alloc, answered.reply);
    }

    fn waits() {}
}
