ghost use Rattle.std.specs.Prelude.{◌≡◌};
ghost use Rattle.object_pool.specs.Places.{object_of};
ghost use Rattle.object_words.specs.Answers.{Answers};
ghost use Rattle.object_words.specs.HoldCalls.{close_refusal, closed, entry_refusal};
ghost use Rattle.object_words.specs.Names.{entries};
ghost use Rattle.object_words.specs.Shards.{Shard as ShardOf};
ghost use Rattle.class_words.specs.Shards.{IsShard};
ghost use Rattle.class_words.specs.Works.{Works};

use crate::first::{check_entry, first_entry};
use crate::taking::{check_taking, take};
use class_words::header_at;
use object_pool::Place;
use object_words::{ClassFault, Hold};
use std::alloc::Global;

/// Closes the shard to writers under a number, so that it takes no change of an entry. A lower number that
/// held it until then is fenced; where the same number holds it already, nothing changes.
///
/// It is refused, in this order, where the shard no longer serves (`Moved`, `Closed`), where the number is
/// not above its fence (`Fenced`), where a greater number holds it (`Held`), and where the first entry, in
/// the order of names, has a change under way (`Unsettled`) or, without `force`, where there is an entry
/// (`NotEmpty`). Entries behind the first one are not looked at.
pub fn close(alloc: Global, shard: &mut Place<'_>, id: u64, force: bool) -> Result<(), ClassFault>
    requires { (s : ShardOf) × IsShard (object_of shard.old) s }
    ensures works { Works shard.old shard.new }
    ensures answers { (s : ShardOf) → IsShard (object_of shard.old) s
        → Answers result (close_refusal s id force) (λ _. Unit {0}) (IsShard (object_of shard.new)) s (closed s id force) }
{
    let header = header_at(shard);
    if let Err(why) = check_taking(&header, id) {
        return Err(ClassFault::No(why));
    }
    check_first(alloc, shard, force)?;
    take(shard, &header, id, Hold::Closing(id));
    Ok(())
}

/// Whether the first entry lets the shard be closed.
fn check_first(alloc: Global, shard: &Place<'_>, force: bool) -> Result<(), ClassFault>
    requires { (s : ShardOf) × IsShard (object_of shard.now) s }
    ensures { (s : ShardOf) → IsShard (object_of shard.now) s
        → Answers result (entry_refusal (entries s.entries) force) (λ _. Unit {0}) (IsShard (object_of shard.now)) s s }
{
    let Ok(first) = first_entry(alloc, shard) else {
        return Err(ClassFault::OutOfMemory);
    };
    let Some((name, bytes)) = first else {
        return Ok(());
    };
    if let Err(why) = check_entry(name, bytes.as_slice(), force) {
        return Err(ClassFault::No(why));
    }
    Ok(())
}
