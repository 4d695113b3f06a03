//! A tag that its change takes away.
ghost use Rattle.std.specs.Prelude.{◌≡◌, None, Some, IfOk, IfErr, OnErr};
ghost use Rattle.object_pool.specs.Places.{object_of};
ghost use Rattle.object_words.specs.Shards.{Shard as ShardOf, entry_at};
ghost use Rattle.object_words.specs.ShardCalls.{complete_refusal};
ghost use Rattle.object_words.specs.Tags.{without_tag};
ghost use Rattle.class_words.specs.Shards.{IsShard, IsSmall};
ghost use Rattle.class_words.specs.Works.{Works};
ghost use Rattle.cls_index.specs.Rows.{IsLeft};

use crate::header::check_changes;
use crate::rows::take_tag;
use crate::settling::bytes_of;
use crate::tags::find_tag;
use class_words::header_at;
use index_entry::{EntryFront, ShardHeader};
use object_pool::Place;
use object_words::{ObjectName, Why};

/// Takes a tag away from the entry of a name, where the shard takes changes and the entry has it: the header as it
/// was, and the front of what is left of the entry. Takes no memory.
pub(crate) fn take_change(
    shard: &mut Place<'_>,
    name: &ObjectName,
    tag: u64,
) -> Result<(ShardHeader, EntryFront), Why>
    requires { (s : ShardOf) × IsShard (object_of shard.old) s × IsSmall s }
    ensures works { Works shard.old shard.new }
    ensures left { IfOk result (λ r. (s : ShardOf) → IsShard (object_of shard.old) s → IsSmall s
        → (complete_refusal s name.now tag ≡ None)
        × IsLeft (object_of shard.new) s name.now (without_tag tag (entry_at s name.now).tags) r.0 r.1 1) }
    ensures refused { IfErr result (λ why. (s : ShardOf) → IsShard (object_of shard.old) s → IsSmall s
        → complete_refusal s name.now tag ≡ Some why) }
    ensures kept { OnErr result (shard.new ≡ shard.old) }
{
    let header = header_at(shard);
    check_changes(&header)?;
    let text = bytes_of(name);
    let Some((front, place)) = find_tag(shard, text, tag) else {
        return Err(Why::NoTag);
    };
    take_tag(shard, text, &front, place);
    let left = EntryFront {
        tags: front.tags - 1,
        ..front
    };
    Ok((header, left))
}
