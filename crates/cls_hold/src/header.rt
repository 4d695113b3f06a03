//! The hold in the header of a shard.
ghost use Rattle.std.specs.Prelude.{◌≡◌};
ghost use Rattle.object_pool.specs.Places.{object_of};
ghost use Rattle.object_words.specs.HoldCalls.{hold_number};
ghost use Rattle.object_words.specs.Shards.{Shard as ShardOf};
ghost use Rattle.class_words.specs.Shards.{IsShard, header_of};
ghost use Rattle.class_words.specs.Works.{Works};

use class_words::put_header;
use index_entry::ShardHeader;
use object_pool::Place;
use object_words::Hold;

/// Puts another hold and another fence into the header of a shard. Takes no memory.
pub(crate) fn put_hold(shard: &mut Place<'_>, header: &ShardHeader, hold: Hold, fence: u64)
    requires { (s : ShardOf) × IsShard (object_of shard.old) s × (header.now ≡ header_of s) }
    ensures works { Works shard.old shard.new }
    ensures shard { (s : ShardOf) → IsShard (object_of shard.old) s → header.now ≡ header_of s
        → IsShard (object_of shard.new) (record s { hold = hold; fence = fence }) }
{
    let changed = ShardHeader {
        hold,
        fence,
        ..*header
    };
    put_header(shard, &changed);
}

/// The number that holds a shard; 0 where none does.
pub(crate) fn number_of(hold: Hold) -> u64
    ensures { result ≡ hold_number hold }
{
    match hold {
        Hold::Free => 0,
        Hold::Reshard(id) | Hold::Closing(id) => id,
    }
}
