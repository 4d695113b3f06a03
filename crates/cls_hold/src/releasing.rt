ghost use Rattle.std.specs.Prelude.{◌≡◌, nat_le, if◌then◌else◌};
ghost use Rattle.object_pool.specs.Places.{object_of};
ghost use Rattle.object_words.specs.declared.shard.Hold.TheVariants.{Free};
ghost use Rattle.object_words.specs.HoldCalls.{hold_number, released};
ghost use Rattle.object_words.specs.Shards.{Shard as ShardOf};
ghost use Rattle.class_words.specs.Shards.{IsShard};
ghost use Rattle.class_words.specs.Works.{Works};

use crate::header::{number_of, put_hold};
use class_words::header_at;
use object_pool::Place;
use object_words::Hold;

/// Lets go of a hold up to a number, and fences so many numbers. A hold of a greater number stays, and so
/// does a greater fence. Takes no memory.
pub fn release(shard: &mut Place<'_>, id: u64)
    requires { (s : ShardOf) × IsShard (object_of shard.old) s }
    ensures works { Works shard.old shard.new }
    ensures shard { (s : ShardOf) → IsShard (object_of shard.old) s → IsShard (object_of shard.new) (released s id) }
{
    let header = header_at(shard);
    let hold = hold_above(header.hold, id);
    let fence = header.fence.max(id);
    put_hold(shard, &header, hold, fence);
}

/// The hold, if its number is above this one.
fn hold_above(hold: Hold, id: u64) -> Hold
    ensures { result ≡ (if nat_le (hold_number hold) id then Free else hold) }
{
    if number_of(hold) <= id {
        Hold::Free
    } else {
        hold
    }
}
