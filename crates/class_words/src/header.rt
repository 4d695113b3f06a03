//! The header of a shard.
ghost use Rattle.std.specs.Prelude.{◌≡◌, IfErr, OnOk, None, Some, length};
ghost use Rattle.object_pool.specs.Places.{object_of, rows_of};
ghost use Rattle.object_words.specs.Refusals.{fate_refusal};
ghost use Rattle.object_words.specs.Shards.{Shard as ShardOf};
ghost use Rattle.index_entry.specs.Headers.{IsHeader, header_bytes};
ghost use Rattle.class_words.specs.Shards.{IsShard, header_of};
ghost use Rattle.class_words.specs.Works.{Works};

use index_entry::{ShardHeader, decode_header, encode_header};
use object_pool::Place;
use object_words::{Fate, Why};

/// The header of a shard.
pub fn header_at(shard: &Place<'_>) -> ShardHeader
    requires { (s : ShardOf) × IsShard (object_of shard.now) s }
    ensures { (s : ShardOf) → IsShard (object_of shard.now) s → result ≡ header_of s }
{
    decode_header(shard.attrs()).unwrap()
}

/// Writes the header of a shard over the one that is there, which is as long. Takes no memory.
pub fn put_header(shard: &mut Place<'_>, header: &ShardHeader)
    requires { length (object_of shard.old).attrs ≡ 68 }
    ensures works { Works shard.old shard.new }
    ensures attrs { (object_of shard.new).attrs ≡ header_bytes header.now }
    ensures fits { IsHeader header.now }
    ensures bytes { (object_of shard.new).bytes ≡ (object_of shard.old).bytes }
    ensures rows { rows_of shard.new ≡ rows_of shard.old }
{
    shard.write_attrs(0, &encode_header(header));
}

/// Whether the shard still serves: `Moved` where another instance took its place, `Closed` where it was
/// closed for good.
pub fn check_serves(header: &ShardHeader) -> Result<(), Why>
    ensures ok { OnOk result (fate_refusal header.now.fate ≡ None) }
    ensures err { IfErr result (λ why. fate_refusal header.now.fate ≡ Some why) }
{
    match header.fate {
        Fate::Serving => Ok(()),
        Fate::Moved(instance) => Err(Why::Moved { instance }),
        Fate::Closed => Err(Why::Closed),
    }
}
