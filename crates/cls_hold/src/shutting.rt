ghost use Rattle.std.specs.Prelude.{◌≡◌};
ghost use Rattle.object_pool.specs.Places.{object_of};
ghost use Rattle.object_words.specs.HoldCalls.{shut_down};
ghost use Rattle.object_words.specs.Shards.{Shard as ShardOf};
ghost use Rattle.class_words.specs.Shards.{IsShard};
ghost use Rattle.class_words.specs.Works.{Works};

use class_words::{header_at, put_header};
use index_entry::ShardHeader;
use object_pool::Place;
use object_words::Fate;

/// Takes all entries away and closes the shard for good, also one that is held or no longer serves. Its log,
/// its hold and its fence stay. Takes no memory.
pub fn shut(shard: &mut Place<'_>)
    requires { (s : ShardOf) × IsShard (object_of shard.old) s }
    ensures works { Works shard.old shard.new }
    ensures shard { (s : ShardOf) → IsShard (object_of shard.old) s → IsShard (object_of shard.new) (shut_down s) }
{
    let header = header_at(shard);
    // The keys of the log begin with byte 0, as no name does, and no text has the byte 255.
    shard.take_rows(&[1], &[255]);
    let shut = ShardHeader {
        objects: 0,
        bytes: 0,
        tags: 0,
        fate: Fate::Closed,
        ..header
    };
    put_header(shard, &shut);
}
