ghost use Rattle.std.specs.Prelude.{◌≡◌, ◌↔◌, IfSome, IsSome};
ghost use Rattle.realm_model.specs.Settings.{SettingsView};
ghost use Rattle.realm_model.specs.Doors.{DoorView};
ghost use Rattle.index_update.specs.Paths.{turned, ready};
ghost use Rattle.index_update.specs.Stages.{IsOver};
ghost use Rattle.index_update.specs.Fits.{Start, known_at, HasName, AtRow, HasShards};
ghost use Rattle.index_update.specs.Updates.{stage_of, target_of, begun, start_at, fits, MayBegin, IsEnd};
ghost use Rattle.index_update.specs.declared.stage.Stage.TheVariants.{Looking, Preparing, Ended};

use crate::advancing::{completed, tried_after, written};
use crate::head_change::HeadChange;
use crate::splitting::split_off;
use crate::stage::{Rest, Stage, Target, Tried, Updated};
use object_words::ShardKey;
use realm_door::{Answered, Door, Taken};
use realm_model::Reply;
use std::alloc::{AllocError, Global};
use std::mem::replace;
use turn_cell::DoorFault;

/// A change of one head, and of the index that names it: the row is read, a tag is prepared and announced, the head is
/// changed, and the change is completed. What was refused is tried again as far as that may succeed.
#[derive(Drop)]
pub struct IndexUpdate {
    target: Target,
    stage: Stage,
    tried: Tried,
}

impl IndexUpdate {
    /// An update that begins with a read of the row.
    pub fn new(target: Target, change: HeadChange) -> IndexUpdate
        ensures update { result ≡ begun target (Looking change) }
        ensures fits { (settings : SettingsView) (d : DoorView) → MayBegin settings target change (known_at settings d)
            → fits (start_at turned change settings d) result settings d }
    {
        begun(target, Stage::Looking { change })
    }

    /// An update in the shard that an own read of the row named.
    pub fn in_shard(target: Target, key: ShardKey, change: HeadChange) -> IndexUpdate
        ensures update { result ≡ begun target (Preparing key change) }
        ensures fits { (settings : SettingsView) (d : DoorView) → MayBegin settings target change (known_at settings d)
            → AtRow target key (known_at settings d)
            → fits (start_at ready change settings d) result settings d }
    {
        begun(target, Stage::Preparing { key, change })
    }

    /// How it ended, once it has.
    #[tactic(auto, using(crate::proofs::Beginning::means_it))]
    pub fn end(&self) -> Option<&Updated>
        ensures there { IsSome result ↔ IsOver (stage_of self.now) }
        ensures stage { IfSome result (λ end. stage_of self.now ≡ Ended end.now) }
        ensures right { IfSome result (λ end. (s : Start) (settings : SettingsView) (d : DoorView)
            → fits s self.now settings d → IsEnd s self.now end.now (known_at settings d)) }
    {
        match &self.stage {
            Stage::Ended(end) => Some(end),
            _ => None,
        }
    }
}

impl IndexUpdate {
    ghost use Rattle.std.specs.Prelude.{◌≡◌, ℕ, ◌<◌, ◌≤◌, ◌^◌, true, length, IfOk, OnOk, OnErr, IfErr};
    ghost use Rattle.turn_cell.specs.declared.machine.DoorFault.TheVariants.{Worn};
    ghost use Rattle.realm_model.specs.Histories.{Legal};
    ghost use Rattle.realm_model.specs.declared.event.Reply.{Reply as ReplyOf};
    ghost use Rattle.realm_door.specs.Turns.{MakesEvent, IsOneMore};
    ghost use Rattle.index_update.specs.Stages.{IsReady, op_of, rest_of, tried_after, resumed};
    ghost use Rattle.index_update.specs.Fits.{HasShards};
    ghost use Rattle.realm_model.specs.Allowed.{allowed};
    ghost use Rattle.realm_model.specs.Doors.{actor_at};
    ghost use Rattle.realm_model.specs.Histories.{phase_of};
    ghost use Rattle.realm_model.specs.Suits.{Suits};
    ghost use Rattle.realm_door.specs.Steps.{Extends, back_of};
    ghost use Rattle.index_update.specs.declared.update.IndexUpdate.{IndexUpdate as IndexUpdateOf};
    ghost use Rattle.index_update.specs.Updates.{at_stage, stepped, next_op, IsTaken};
    ghost use Rattle.index_update.specs.declared.stage.Updated.TheVariants.{MovedOften};

    /// Takes the operation out of the stage. It fails only for want of memory.
    pub fn split(&mut self) -> Result<Taken<Rest>, AllocError>
        requires ready { IsReady (stage_of self.old) }
        ensures op { IfOk result (λ s. s.op ≡ next_op self.old) }
        ensures rest { IfOk result (λ s. IsTaken self.old self.new s.rest) }
        ensures may { (s : Start) (settings : SettingsView) (d : DoorView) → fits s self.old settings d
            → allowed settings (phase_of settings d.seen (actor_at d)) (next_op self.old) ≡ true }
        ensures target { target_of self.new ≡ target_of self.old }
    {
        self.take_out()
    }

    /// Takes the operation out of the stage.
    fn take_out(&mut self) -> Result<Taken<Rest>, AllocError>
        requires ready { IsReady (stage_of self.old) }
        ensures op { IfOk result (λ s. s.op ≡ next_op self.old) }
        ensures rest { IfOk result (λ s. IsTaken self.old self.new s.rest) }
        ensures target { target_of self.new ≡ target_of self.old }
    {
        match &self.stage {
            Stage::Looking { .. } | Stage::LookingForShard { .. } => self.target.look(),
            Stage::Preparing { key, .. } => self.target.prepare(*key),
            Stage::Announcing { key, .. } => self.target.announce(*key),
            Stage::Cancelling { key, tag, .. } => self.target.cancel(*key, *tag),
            Stage::Writing { .. } | Stage::Completing { .. } | Stage::Ended(_) => {
                let stage = replace(&mut self.stage, Stage::Ended(Updated::MovedOften));
                split_off(&self.target, stage)
            }
        }
    }

    /// Goes on by the answer to that operation.
    pub fn take(&mut self, rest: Rest, answered: Answered)
        ensures next { (u : IndexUpdateOf) → IsTaken u self.old rest
            → Suits (next_op u) answered.reply → answered.back ≡ back_of (next_op u) answered.reply
            → (self.new ≡ stepped u answered.reply)
            × ((s : Start) (settings : SettingsView) (d e : DoorView) (moment : ℕ)
            → fits s u settings d → Extends settings d (next_op u) moment answered e → fits s self.new settings e) }
        ensures target { target_of self.new ≡ target_of self.old }
    {
        self.go_on(rest, answered);
    }

    /// Goes on by an answer.
    fn go_on(&mut self, rest: Rest, answered: Answered)
        ensures update { self.new ≡ at_stage self.old
            (resumed self.old.target (tried_after self.old.tried answered.reply) self.old.stage rest answered.reply answered.back)
            (tried_after self.old.tried answered.reply) }
        ensures sound { HasShards answered.reply }
    {
        has_shards(&answered.reply);
        self.tried = tried_after(self.tried, &answered.reply);
        match rest {
            Rest::Stands => self.stage.stand_on(&self.target, self.tried, answered),
            Rest::Write { key, guard } => {
                let stage = written(self.tried, key, guard, answered);
                self.stage.stand(stage);
            }
            Rest::Complete(unfinished) => {
                let stage = completed(self.tried, unfinished, answered);
                self.stage.stand(stage);
            }
        }
    }

    /// Makes the event that comes next. At `Err` there is none, and the update is of no more use.
    pub fn event<D: Door>(
        &mut self,
        alloc: Global,
        door: &mut D,
        moment: u64,
    ) -> Result<(), DoorFault>
        requires ready { IsReady (stage_of self.old) }
        requires fits { D.tells → Legal (D.settings door.old) (D.told door.old).seen
            × ((s : Start) × fits s self.old (D.settings door.old) (D.told door.old)) }
        ensures legal { D.tells → Legal (D.settings door.old) (D.told door.new).seen }
        ensures kept { OnOk result (D.tells → (s : Start) → fits s self.old (D.settings door.old) (D.told door.old)
            → fits s self.new (D.settings door.old) (D.told door.new)) }
        ensures steps { OnOk result ((reply : ReplyOf) × (self.new ≡ stepped self.old reply)) }
        ensures made { OnOk result (D.tells → MakesEvent (D.settings door.old) moment (D.told door.old) (D.told door.new)) }
        ensures alone { OnOk result (D.tells → D.alone → IsOneMore (D.told door.old) (D.told door.new)) }
        ensures counts { OnOk result ((D.last door.old < D.last door.new) × (D.last door.new ≤ 2 ^ 62)) }
        ensures target { target_of self.new ≡ target_of self.old }

        ensures stopped { OnErr result ((D.tells → D.told door.new ≡ D.told door.old) × (D.last door.new ≡ D.last door.old)) }
        ensures worn { IfErr result (λ f. D.tells → f ≡ Worn → length (D.found door.new) ≡ 2 ^ 62) }

        ensures settings { D.settings door.new ≡ D.settings door.old }
        ensures home { D.home door.new ≡ D.home door.old }
    {
        let Ok(Taken { op, rest }) = self.split() else {
            return Err(DoorFault::OutOfMemory);
        };
        match door.step(alloc, op, moment) {
            Ok(answered) => {
                self.take(rest, answered);
                Ok(())
            }
            Err(stopped) => {
                let fault = stopped.fault;
                drop(stopped);
                Err(fault)
            }
        }
    }
}

/// An update that made no event.
fn begun(target: Target, stage: Stage) -> IndexUpdate
    ensures update { result ≡ begun target stage }
    ensures named { HasName target }
{
    target.has_name();
    IndexUpdate {
        target,
        stage,
        tried: Tried {
            moved: 0,
            expired: 0,
        },
    }
}

impl Target {
    ghost use Rattle.index_update.specs.Fits.{HasName};

    /// The name of the object is within the bounds of names, by its type.
    fn has_name(&self)
        ensures { HasName self.now }
    {
        let _text = self.name.as_text();
    }
}

/// Any row that an answer shows has shards, by its type.
fn has_shards(reply: &Reply)
    ensures { HasShards reply.now }
{
    if let Reply::Row(row) = reply {
        let _count = row.shards.get();
    }
}
