ghost use Rattle.std.specs.Prelude.{◌≡◌, true};
ghost use Rattle.object_words.specs.Keys.{is_shard_key};

use rgw_types::Key;
use std::marker::Model;

/// The name of a shard of a container's index. Contracts see it as the key of a zone's pool that it is.
#[derive(Clone, Copy, Debug, PartialEq, Eq)]
pub struct ShardKey {
    pub container: u64,
    pub instance: u64,
    pub shard: u32,
}

impl Model for ShardKey {
    ghost use Rattle.rgw_types.specs.declared.pool_key.Key.{Key};
    ghost use Rattle.rgw_types.specs.declared.pool_key.Key.TheVariants.{Shard};
    ghost use Rattle.object_words.specs.Keys.{container_of, instance_of, number_of};

    ghost Value = { Key };

    ghost view = { λ k. Shard k.container k.instance k.shard };

    ghost inverse = { λ key. record { container = container_of key; instance = instance_of key; shard = number_of key } };
}

impl ShardKey {
    /// The key.
    pub fn to_key(self) -> Key
        ensures key { result ≡ self }
        ensures shard { is_shard_key self ≡ true }
    {
        Key::Shard {
            container: self.container,
            instance: self.instance,
            shard: self.shard,
        }
    }
}
