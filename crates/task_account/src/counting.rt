ghost use Rattle.std.specs.Prelude.{◌≡◌, nat_lt};
ghost use Rattle.object_words.specs.Keys.{shard_key};
ghost use Rattle.task_account.specs.Stages.{counting_from, counted};

use object_words::{Bucket, ShardKey, ShardStats};

/// What the headers of a container's first shards came to.
#[derive(Debug, Drop)]
pub struct Counting {
    pub row: Bucket,
    /// The shard whose header comes next.
    pub next: u32,
    pub objects: u64,
    pub bytes: u64,
}

impl Counting {
    /// No header came yet.
    pub fn new(row: Bucket) -> Counting
        ensures { result ≡ counting_from row }
    {
        Counting {
            row,
            next: 0,
            objects: 0,
            bytes: 0,
        }
    }

    /// The shard whose header comes next.
    pub fn key(&self) -> ShardKey
        ensures { result ≡ shard_key self.now.row.id self.now.row.instance self.now.next }
    {
        ShardKey {
            container: self.row.id,
            instance: self.row.instance,
            shard: self.next,
        }
    }

    /// Whether a header comes next.
    pub fn is_open(&self) -> bool
        ensures { result ≡ nat_lt self.now.next self.now.row.shards }
    {
        self.next < self.row.shards.get()
    }

    /// With one header more. Each sum stops at the end of 64 bits.
    pub fn with(self, stats: ShardStats) -> Counting
        ensures { result ≡ counted self stats }
    {
        let Counting {
            row,
            next,
            objects,
            bytes,
        } = self;
        let next = if next < row.shards.get() {
            next + 1
        } else {
            next
        };
        Counting {
            row,
            next,
            objects: objects.saturating_add(stats.objects),
            bytes: bytes.saturating_add(stats.bytes),
        }
    }
}
