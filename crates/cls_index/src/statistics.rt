ghost use Rattle.std.specs.Prelude.{◌≡◌};
ghost use Rattle.object_pool.specs.Places.{object_of};
ghost use Rattle.object_words.specs.Answers.{Replies};
ghost use Rattle.object_words.specs.Refusals.{fate_refusal};
ghost use Rattle.object_words.specs.Shards.{Shard as ShardOf, stats_of};
ghost use Rattle.class_words.specs.Shards.{IsShard};

use class_words::{check_serves, header_at};
use object_pool::Place;
use object_words::{ShardStats, Why};

/// The header of a shard, also of one that is held. A sum of sizes above the greatest `u64` is told as that
/// number. Takes no memory.
pub fn stats(shard: &Place<'_>) -> Result<ShardStats, Why>
    requires { (s : ShardOf) × IsShard (object_of shard.now) s }
    ensures { (s : ShardOf) → IsShard (object_of shard.now) s
        → Replies result (fate_refusal s.fate) (λ stats. stats ≡ stats_of s) (IsShard (object_of shard.now)) s }
{
    let header = header_at(shard);
    check_serves(&header)?;
    Ok(ShardStats {
        objects: header.objects,
        bytes: header.bytes.min(u128::from(u64::MAX)) as u64,
        tags: header.tags,
        hold: header.hold,
        fence: header.fence,
    })
}
