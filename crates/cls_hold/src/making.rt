ghost use Rattle.std.specs.Prelude.{◌≡◌, Option, OnErr, OnOk};
ghost use Rattle.object_pool.specs.Places.{Stays, object_of};
ghost use Rattle.object_words.specs.Shards.{Shard as ShardOf};
ghost use Rattle.object_words.specs.ShardCalls.{made};
ghost use Rattle.class_words.specs.Shards.{IsShardOr};
ghost use Rattle.class_words.specs.Works.{Works};

use index_entry::{ShardHeader, encode_header};
use object_pool::{Bytes, OutOfMemory, Place};
use object_words::{Fate, Hold};
use std::alloc::Global;

/// Makes a shard without entries, which serves and which nothing holds. One that is there stays as it is.
/// It fails only for want of memory, and then nothing changes.
pub fn make(alloc: Global, shard: &mut Place<'_>) -> Result<(), OutOfMemory>
    requires { (s : Option ShardOf) × IsShardOr (object_of shard.old) s }
    ensures works { Works shard.old shard.new }
    ensures ok { (s : Option ShardOf) → IsShardOr (object_of shard.old) s → OnOk result (IsShardOr (object_of shard.new) (made s)) }
    ensures err { OnErr result (Stays shard.old shard.new) }
{
    if shard.exists() {
        return Ok(());
    }
    let header = ShardHeader {
        objects: 0,
        bytes: 0,
        tags: 0,
        last: 0,
        hold: Hold::Free,
        fate: Fate::Serving,
        fence: 0,
    };
    let attrs = Bytes::from_slice(alloc, &encode_header(&header))?;
    shard.set_attrs(attrs);
    Ok(())
}
