ghost use Rattle.std.specs.Prelude.{◌≡◌, ℕ};
ghost use Rattle.object_pool.specs.Places.{object_of};
ghost use Rattle.object_words.specs.Answers.{Replies};
ghost use Rattle.object_words.specs.Shards.{Shard as ShardOf};
ghost use Rattle.object_words.specs.ShardCalls.{complete_refusal, completed};
ghost use Rattle.class_words.specs.Shards.{IsShard, IsSmall};
ghost use Rattle.class_words.specs.Works.{Works};

use crate::settling::settle;
use crate::taking::take_change;
use object_pool::Place;
use object_words::{EntryRow, ObjectName, Why};

/// Takes a tag away from the entry of a name. Where the version is greater than the entry's, its row is
/// stored with it, and the change is logged. Takes no memory.
pub fn complete(
    shard: &mut Place<'_>,
    name: &ObjectName,
    tag: u64,
    version: u64,
    row: &EntryRow,
) -> Result<(), Why>
    requires { (s : ShardOf) × IsShard (object_of shard.old) s × IsSmall s }
    ensures works { Works shard.old shard.new }
    ensures answers { (s : ShardOf) → IsShard (object_of shard.old) s → IsSmall s
        → Replies result (complete_refusal s name.now tag) (λ _. Unit {0}) (IsShard (object_of shard.new)) (completed s name.now tag version row.now) }
{
    let (header, left) = take_change(shard, name, tag)?;
    settle(shard, name, &header, &left, 1, version, row);
    Ok(())
}
