ghost use Rattle.std.specs.Prelude.{◌≡◌, ℕ};
ghost use Rattle.object_pool.specs.Places.{object_of};
ghost use Rattle.object_words.specs.Answers.{Replies};
ghost use Rattle.object_words.specs.Shards.{Shard as ShardOf};
ghost use Rattle.object_words.specs.ShardCalls.{cancelled, complete_refusal};
ghost use Rattle.class_words.specs.Shards.{IsShard, IsSmall};
ghost use Rattle.class_words.specs.Works.{Works};

use crate::settling::{bytes_of, keep_row};
use crate::taking::take_change;
use object_pool::Place;
use object_words::{ObjectName, Why};

/// Takes a tag away from the entry of a name, with nothing stored. Takes no memory.
pub fn cancel(shard: &mut Place<'_>, name: &ObjectName, tag: u64) -> Result<(), Why>
    requires { (s : ShardOf) × IsShard (object_of shard.old) s × IsSmall s }
    ensures works { Works shard.old shard.new }
    ensures answers { (s : ShardOf) → IsShard (object_of shard.old) s → IsSmall s
        → Replies result (complete_refusal s name.now tag) (λ _. Unit {0}) (IsShard (object_of shard.new)) (cancelled s name.now tag) }
{
    let (header, left) = take_change(shard, name, tag)?;
    keep_row(shard, bytes_of(name), &header, &left, 1);
    Ok(())
}
