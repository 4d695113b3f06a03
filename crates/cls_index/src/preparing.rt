ghost use Rattle.std.specs.Prelude.{◌≡◌, ℕ};
ghost use Rattle.object_pool.specs.Places.{object_of};
ghost use Rattle.object_words.specs.Answers.{Answers};
ghost use Rattle.object_words.specs.Shards.{Shard as ShardOf};
ghost use Rattle.object_words.specs.ShardCalls.{prepare_refusal, prepared};
ghost use Rattle.object_words.specs.Tags.{guard_of, tag_of};
ghost use Rattle.class_words.specs.Shards.{HasTagsBelow, IsShard, IsSmall};
ghost use Rattle.class_words.specs.Works.{Works};

use crate::header::check_changes;
use crate::rows::add_tag;
use crate::settling::bytes_of;
use class_words::{header_at, put_header};
use index_entry::ShardHeader;
use object_pool::Place;
use object_words::{ClassFault, Guard, ObjectName, Tag};
use std::alloc::Global;

/// Adds a tag to the entry of a name, which need not be there: the tag has the number of the event, and
/// a deadline so long after the clock. What the change needs later, room in the entry and a row of the log,
/// is made ready here.
pub fn prepare(
    alloc: Global,
    shard: &mut Place<'_>,
    name: &ObjectName,
    number: u64,
    clock: u64,
    life: u64,
) -> Result<Guard, ClassFault>
    requires { (s : ShardOf) × IsShard (object_of shard.old) s × IsSmall s × HasTagsBelow number s }
    ensures works { Works shard.old shard.new }
    ensures answers { (s : ShardOf) → IsShard (object_of shard.old) s → IsSmall s → HasTagsBelow number s
        → Answers result (prepare_refusal s) (λ guard. guard ≡ guard_of (tag_of number clock life)) (IsShard (object_of shard.new)) s (prepared s name.now (tag_of number clock life)) }
{
    let header = header_at(shard);
    if let Err(why) = check_changes(&header) {
        return Err(ClassFault::No(why));
    }
    let Ok(()) = shard.reserve_rows(alloc, header.tags + 1) else {
        return Err(ClassFault::OutOfMemory);
    };
    let tag = Tag::prepared(number, clock, life);
    let Ok(()) = add_tag(alloc, shard, bytes_of(name), &tag) else {
        return Err(ClassFault::OutOfMemory);
    };
    let counted = ShardHeader {
        tags: header.tags + 1,
        ..header
    };
    put_header(shard, &counted);
    Ok(Guard {
        tag: tag.tag,
        deadline: tag.deadline,
    })
}
