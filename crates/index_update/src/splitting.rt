// The operation of a stage, taken out of it.
ghost use Rattle.std.specs.Prelude.{◌≡◌, IfOk};
ghost use Rattle.index_update.specs.Stages.{TakesAlong, op_of, rest_of};

use crate::head_change::HeadChange;
use crate::stage::{Change, Rest, Stage, Target, Unfinished};
use object_words::{Guard, ShardKey};
use realm_door::Taken;
use realm_model::Op;
use std::alloc::AllocError;

/// The operation that takes of its stage, and what is kept while it is done.
pub(crate) fn split_off(target: &Target, stage: Stage) -> Result<Taken<Rest>, AllocError>
    requires along { TakesAlong stage }
    ensures op { IfOk result (λ s. s.op ≡ op_of target.now stage) }
    ensures rest { IfOk result (λ s. s.rest ≡ rest_of stage) }
{
    match stage {
        Stage::Writing { key, guard, change } => target.change(key, guard, change),
        Stage::Completing { key, made } => target.complete(key, made),
        _ => unreachable!(),
    }
}

impl Target {
    ghost use Rattle.std.specs.Prelude.{◌≡◌, IfOk};
    ghost use Rattle.realm_model.specs.declared.op.Op.TheVariants.{BucketRead, Prepare, Announce, Cancel};
    ghost use Rattle.object_words.specs.Keys.{container_of, instance_of, number_of};
    ghost use Rattle.index_update.specs.Stages.{op_of, rest_of};
    ghost use Rattle.index_update.specs.declared.stage.Rest.TheVariants.{Stands};
    ghost use Rattle.index_update.specs.declared.stage.Stage.TheVariants.{Writing, Completing};

    /// The row is read, and the stage stands.
    pub fn look(&self) -> Result<Taken<Rest>, AllocError>
        ensures { IfOk result (λ s. s ≡ record { op = BucketRead self.now.zone self.now.container; rest = Stands }) }
    {
        Ok(Taken {
            op: Op::BucketRead {
                zone: self.zone,
                name: self.container.clone()?,
            },
            rest: Rest::Stands,
        })
    }

    /// A change of the name is prepared.
    pub(crate) fn prepare(&self, key: ShardKey) -> Result<Taken<Rest>, AllocError>
        ensures { IfOk result (λ s. s ≡ record { op = Prepare self.now.zone key self.now.name; rest = Stands }) }
    {
        Ok(Taken {
            op: Op::Prepare {
                zone: self.zone,
                key,
                name: self.name.clone()?,
            },
            rest: Rest::Stands,
        })
    }

    /// The shard is announced.
    pub(crate) fn announce(&self, key: ShardKey) -> Result<Taken<Rest>, AllocError>
        ensures { IfOk result (λ s. s ≡ record {
          op = Announce self.now.zone (container_of key) (instance_of key) (number_of key) self.now.container;
          rest = Stands;
        }) }
    {
        Ok(Taken {
            op: Op::Announce {
                zone: self.zone,
                container: key.container,
                instance: key.instance,
                shard: key.shard,
                bucket: self.container.clone()?,
            },
            rest: Rest::Stands,
        })
    }

    /// The head is changed.
    pub(crate) fn change(
        &self,
        key: ShardKey,
        guard: Guard,
        change: HeadChange,
    ) -> Result<Taken<Rest>, AllocError>
        ensures op { IfOk result (λ s. s.op ≡ op_of self.now (Writing key guard change)) }
        ensures rest { IfOk result (λ s. s.rest ≡ rest_of (Writing key guard change)) }
    {
        let name = self.name.clone()?;
        Ok(Taken {
            op: change.into_op(self.zone, key.container, name, guard),
            rest: Rest::Write { key, guard },
        })
    }

    /// The tag is cancelled.
    pub(crate) fn cancel(&self, key: ShardKey, tag: u64) -> Result<Taken<Rest>, AllocError>
        ensures { IfOk result (λ s. s ≡ record { op = Cancel self.now.zone key self.now.name tag; rest = Stands }) }
    {
        Ok(Taken {
            op: Op::Cancel {
                zone: self.zone,
                key,
                name: self.name.clone()?,
                tag,
            },
            rest: Rest::Stands,
        })
    }

    /// The change is completed.
    pub(crate) fn complete(&self, key: ShardKey, made: Change) -> Result<Taken<Rest>, AllocError>
        ensures op { IfOk result (λ s. s.op ≡ op_of self.now (Completing key made)) }
        ensures rest { IfOk result (λ s. s.rest ≡ rest_of (Completing key made)) }
    {
        let name = self.name.clone()?;
        let Change {
            home,
            tag,
            version,
            row,
            stamp,
            old,
        } = made;
        Ok(Taken {
            op: Op::Complete {
                zone: self.zone,
                key,
                name,
                tag,
                version,
                row,
            },
            rest: Rest::Complete(Unfinished {
                home,
                tag,
                version,
                stamp,
                old,
            }),
        })
    }
}
