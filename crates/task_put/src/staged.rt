// The stages of a PUT, as `Stepping` runs them.
ghost use Rattle.std.specs.Prelude.{◌≡◌, List, ℕ, IfOk};
ghost use Rattle.realm_model.specs.Settings.{SettingsView};
ghost use Rattle.realm_model.specs.Doors.{DoorView};
ghost use Rattle.realm_model.specs.Suits.{Suits};
ghost use Rattle.realm_door.specs.Steps.{Extends, back_of};
ghost use Rattle.index_update.specs.Fits.{Start, HasShards};
ghost use Rattle.index_update.specs.Updates.{IsTaken as IsUpdateTaken, next_op, stepped as update_stepped, fits as update_fits};
ghost use Rattle.index_update.specs.declared.update.IndexUpdate.{IndexUpdate as IndexUpdateOf};
ghost use Rattle.task_put.specs.declared.stage.Stage.TheVariants.{Changing};
ghost use Rattle.task_put.specs.Stages.{IsReady, op_of, resumed, after_update};
ghost use Rattle.task_put.specs.Tasks.{request_of, stage_of, at_stage, IsTaken};

use crate::closing::next_at;
use crate::stage::{PutRequest, Stage};
use crate::task::PutTask;
use index_update::Rest;
use realm_door::{Answered, Next, Staged, Taken};
use realm_model::Reply;
use std::alloc::{AllocError, Global};
use task_words::Outcome;

impl PutTask {
    /// Takes the operation out of the stage.
    fn take_out(&mut self, alloc: Global) -> Result<Taken<Rest>, AllocError>
        requires ready { IsReady (stage_of self.old) }
        ensures op { IfOk result (λ s. s.op ≡ op_of (stage_of self.old)) }
        ensures rest { IfOk result (λ s. IsTaken self.old self.new s.rest) }
        ensures command { request_of self.new ≡ request_of self.old }
    {
        match &mut self.stage {
            Stage::Looking { draft } => draft.target.look(),
            Stage::Feeding { write, draft, .. } => Ok(Taken {
                op: draft.take_tail(alloc, *write),
                rest: Rest::Stands,
            }),
            Stage::Changing { update, .. } => update.split(),
            Stage::Ended(_) => unreachable!(),
        }
    }

    /// Goes on by the answer to an operation of the body.
    fn body_on(&mut self, answered: Answered)
        ensures task { self.new ≡ at_stage self.old (resumed self.old.stage answered.number answered.reply) }
        ensures sound { HasShards answered.reply }
    {
        has_shards(&answered.reply);
        self.stage.resume(answered);
    }

    /// Goes on by the answer to an operation of the update.
    fn update_on(&mut self, rest: Rest, answered: Answered)
        ensures task { (etag : List ℕ) (u v : IndexUpdateOf) → self.old.stage ≡ Changing etag v → IsUpdateTaken u v rest
            → Suits (next_op u) answered.reply → answered.back ≡ back_of (next_op u) answered.reply
            → self.new ≡ at_stage self.old (after_update etag (update_stepped u answered.reply)) }
        ensures fits { (etag : List ℕ) (u v : IndexUpdateOf) → self.old.stage ≡ Changing etag v → IsUpdateTaken u v rest
            → Suits (next_op u) answered.reply → answered.back ≡ back_of (next_op u) answered.reply
            → (s : Start) (settings : SettingsView) (d e : DoorView) (moment : ℕ)
            → update_fits s u settings d → Extends settings d (next_op u) moment answered e → update_fits s (update_stepped u answered.reply) settings e }
        ensures command { request_of self.new ≡ request_of self.old }
    {
        match &mut self.stage {
            Stage::Changing { update, .. } => {
                update.take(rest, answered);
                self.stage.conclude();
            }
            _ => drop(answered),
        }
    }
}

/// Any row that an answer shows has shards, by its type.
fn has_shards(reply: &Reply)
    ensures { HasShards reply.now }
{
    if let Reply::Row(row) = reply {
        let _count = row.shards.get();
    }
}

impl Staged for PutTask {
    ghost use Rattle.std.specs.Prelude.{◌≡◌, ◌↔◌, ℕ, IsSome, IfSome};
    ghost use Rattle.realm_model.specs.Settings.{SettingsView};
    ghost use Rattle.realm_model.specs.Doors.{DoorView};
    ghost use Rattle.realm_model.specs.declared.event.Reply.{Reply as ReplyOf};
    ghost use Rattle.realm_door.specs.declared.next.Next.TheVariants as nexts;
    ghost use Rattle.task_put.specs.declared.stage.Stage.TheVariants.{Ended};
    ghost use Rattle.task_put.specs.Stages.{IsOver, IsReady, op_of};
    ghost use Rattle.task_put.specs.Stepped.{stepped};
    ghost use Rattle.task_put.specs.Taking.{WantsBytes};
    ghost use Rattle.task_put.specs.Tasks.{request_of, stage_of, decided, fits, IsTaken, IsPutEnd};

    type Command = PutRequest;

    type Outcome = Outcome;

    type Rest = Rest;

    ghost command = { request_of };

    ghost fits = { fits };

    ghost means = { IsPutEnd };

    ghost is_over = { λ t. IsOver (stage_of t) };

    ghost is_ready = { λ t. IsReady (stage_of t) };

    ghost wants = { λ t. WantsBytes (stage_of t) };

    ghost op = { λ t. op_of (stage_of t) };

    ghost is_taken = { IsTaken };

    ghost steps = { λ t u. (number : ℕ) × (reply : ReplyOf) × (u ≡ stepped t number reply) };

    /// Lets the body's end decide, once no tail waits.
    #[tactic(auto, using(crate::proofs::Stepping::settled_task))]
    fn settle(&mut self) -> Next
        ensures task { self.new ≡ decided self.old }
        ensures event { result ≡ nexts.Event → IsReady (stage_of self.new) }
        ensures wants { result ≡ nexts.Wants → WantsBytes (stage_of self.new) }
        ensures done { result ≡ nexts.Done → IsOver (stage_of self.new) }
        ensures over { IsOver (stage_of self.old) → (result ≡ nexts.Done) × (self.new ≡ self.old) }
        ensures fits { (settings : SettingsView) (d : DoorView) → fits self.old settings d → fits self.new settings d }
        ensures command { request_of self.new ≡ request_of self.old }
    {
        match next_at(&self.stage) {
            Some(next) => next,
            None => self.stage.close(),
        }
    }

    #[tactic(auto, using(crate::proofs::Stepping::means_it))]
    fn end(&self) -> Option<&Outcome>
        ensures there { IsSome result ↔ IsOver (stage_of self.now) }
        ensures right { IfSome result (λ outcome. (settings : SettingsView) (d : DoorView)
            → fits self.now settings d → IsPutEnd (request_of self.now) outcome.now settings d) }
        ensures stage { IfSome result (λ outcome. stage_of self.now ≡ Ended outcome.now) }
    {
        match &self.stage {
            Stage::Ended(outcome) => Some(outcome),
            _ => None,
        }
    }

    fn piece(&self) -> &[u8] {
        &[]
    }

    fn split(&mut self, alloc: Global) -> Result<Taken<Rest>, AllocError> {
        self.take_out(alloc)
    }

    fn take(&mut self, _alloc: Global, rest: Rest, answered: Answered) {
        match &self.stage {
            Stage::Changing { .. } => self.update_on(rest, answered),
            _ => self.body_on(answered),
        }
    }

    fn waits() {}
}
