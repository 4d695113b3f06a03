//! The taking of a shard under a number.
ghost use Rattle.std.specs.Prelude.{◌≡◌, None, Some, IfErr, OnOk};
ghost use Rattle.object_pool.specs.Places.{object_of};
ghost use Rattle.object_words.specs.HoldCalls.{take_refusal, taken};
ghost use Rattle.object_words.specs.Shards.{Shard as ShardOf};
ghost use Rattle.class_words.specs.Shards.{IsShard, header_of};
ghost use Rattle.class_words.specs.Works.{Works};

use crate::header::{number_of, put_hold};
use class_words::check_serves;
use index_entry::ShardHeader;
use object_pool::Place;
use object_words::{Hold, Why};

/// Whether a shard with this header can be taken under a number: it serves, and the number is above its
/// fence, and not below that of a hold.
pub(crate) fn check_taking(header: &ShardHeader, id: u64) -> Result<(), Why>
    ensures ok { OnOk result ((s : ShardOf) → header.now ≡ header_of s → take_refusal s id ≡ None) }
    ensures err { IfErr result (λ why. (s : ShardOf) → header.now ≡ header_of s → take_refusal s id ≡ Some why) }
{
    check_serves(header)?;
    let fence = header.fence;
    if id <= fence {
        return Err(Why::Fenced { fence });
    }
    let number = number_of(header.hold);
    if id < number {
        return Err(Why::Held { id: number });
    }
    Ok(())
}

/// Takes a shard under a hold of a number, and fences the number that held it until then. Where the number
/// holds it already nothing changes. Takes no memory.
pub(crate) fn take(shard: &mut Place<'_>, header: &ShardHeader, id: u64, hold: Hold)
    requires { (s : ShardOf) × IsShard (object_of shard.old) s × (header.now ≡ header_of s) }
    ensures works { Works shard.old shard.new }
    ensures shard { (s : ShardOf) → IsShard (object_of shard.old) s → header.now ≡ header_of s
        → IsShard (object_of shard.new) (taken s id hold) }
{
    let number = number_of(header.hold);
    if number != id {
        put_hold(shard, header, hold, header.fence.max(number));
    }
}
