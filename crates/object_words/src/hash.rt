ghost use Rattle.std.specs.Prelude.{◌≡◌, ◌<◌, ◌^◌, ◌%◌};
ghost use Rattle.object_words.specs.Hashes.{hash_step, hash_of, mixed, shard_of};

use crate::ShardCount;

/// The shard of a container's index in which a name stands, among so many.
pub fn shard_of(name: &[u8], count: ShardCount) -> u32
    ensures value { result ≡ shard_of name.now count }
    ensures within { result < count }
{
    mixed((hash_of(name) % (1 << 32)) as u32) % 7877 % count.get()
}

fn hash_of(name: &[u8]) -> u64
    ensures { result ≡ hash_of name.now }
{
    name.iter().fold(0, |hash, byte| hash_step(hash, *byte))
}

fn hash_step(hash: u64, byte: u8) -> u64
    ensures { result ≡ hash_step hash byte }
{
    let byte = u64::from(byte);
    hash.wrapping_add(byte * 16 + byte / 16).wrapping_mul(11)
}

fn mixed(low: u32) -> u32
    ensures { result ≡ mixed low }
{
    low ^ (low % 256 * (1 << 24))
}
