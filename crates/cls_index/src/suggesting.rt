ghost use Rattle.std.specs.Prelude.{◌≡◌, ℕ, Option, true};
ghost use Rattle.object_pool.specs.Places.{object_of};
ghost use Rattle.object_words.specs.Answers.{Replies};
ghost use Rattle.object_words.specs.Shards.{Shard as ShardOf, entry_at};
ghost use Rattle.object_words.specs.ShardCalls.{suggest_refusal, suggested, untimely_refusal};
ghost use Rattle.object_words.specs.Tags.{has_due};
ghost use Rattle.class_words.specs.Shards.{IsShard, IsSmall};
ghost use Rattle.class_words.specs.Works.{Works};

use crate::header::check_changes;
use crate::rows::front_at;
use crate::settling::{bytes_of, settle};
use crate::tags::{has_due, take_due};
use class_words::header_at;
use index_entry::EntryFront;
use object_pool::Place;
use object_words::{EntryRow, ObjectName, Why};

/// Takes those tags away from the entry of a name that were due when the entry was seen with this revision.
/// Where the version is greater than the entry's, its row is stored with it, and the change is logged.
/// Takes no memory.
pub fn suggest(
    shard: &mut Place<'_>,
    name: &ObjectName,
    revision: u64,
    seen: u64,
    version: u64,
    row: &EntryRow,
) -> Result<(), Why>
    // An entry that is still as it was seen had a tag that was due then.
    requires { (s : ShardOf) × IsShard (object_of shard.old) s × IsSmall s × ((entry_at s name.now).revision ≡ revision → has_due seen (entry_at s name.now).tags ≡ true) }
    ensures works { Works shard.old shard.new }
    ensures answers { (s : ShardOf) → IsShard (object_of shard.old) s → IsSmall s → ((entry_at s name.now).revision ≡ revision → has_due seen (entry_at s name.now).tags ≡ true)
        → Replies result (suggest_refusal s name.now revision) (λ _. Unit {0}) (IsShard (object_of shard.new)) (suggested s name.now revision seen version row.now) }
{
    let header = header_at(shard);
    check_changes(&header)?;
    let text = bytes_of(name);
    let Some(front) = front_at(shard, text) else {
        return Err(Why::Stale { revision: 0 });
    };
    if front.revision != revision {
        return Err(Why::Stale {
            revision: front.revision,
        });
    }
    let tags = take_due(shard, text, &front, seen);
    let left = EntryFront { tags, ..front };
    settle(shard, name, &header, &left, front.tags - tags, version, row);
    Ok(())
}

/// Why a suggestion is untimely: the entry is as it was seen, and no tag of it was due at that moment.
/// An event that suggests is refused for this reason first.
pub fn untimely(shard: &Place<'_>, name: &ObjectName, revision: u64, seen: u64) -> Option<Why>
    requires { (s : ShardOf) × IsShard (object_of shard.now) s }
    ensures { (s : ShardOf) → IsShard (object_of shard.now) s → result ≡ untimely_refusal s name.now revision seen }
{
    let text = bytes_of(name);
    let Some(front) = front_at(shard, text) else {
        return if revision == 0 {
            Some(Why::Stale { revision })
        } else {
            None
        };
    };
    if front.revision != revision || has_due(shard, text, front.tags, seen) {
        return None;
    }
    Some(Why::Stale { revision })
}
