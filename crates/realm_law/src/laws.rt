//! Laws of the definitions: the functions here do nothing.
ghost use Rattle.std.specs.Prelude.{◌≡◌, ◌≤◌, ◌++◌, ℕ, List, true, min, Some};
ghost use Rattle.object_words.specs.declared.bucket.Bucket.{Bucket as BucketOf};
ghost use Rattle.object_words.specs.Keys.{shard_key};
ghost use Rattle.object_words.specs.Numbers.{greatest};
ghost use Rattle.object_words.specs.Shards.{Shard as ShardOf, sum_over, byte_count, stats_of};
ghost use Rattle.realm_model.specs.Containers.{row_in, is_standing, entry_of_name, is_settled};
ghost use Rattle.realm_model.specs.Counts.{counts_of};
ghost use Rattle.realm_model.specs.Maps.{heads};
ghost use Rattle.realm_model.specs.Settings.{SettingsView, IsSettings};
ghost use Rattle.realm_model.specs.States.{State};
ghost use Rattle.realm_model.specs.Worlds.{World, start, happens};
ghost use Rattle.realm_model.specs.Histories.{world_of, state_of, IsNext, Legal};
ghost use Rattle.realm_model.specs.declared.event.Event.{Event as EventOf};
ghost use Rattle.realm_law.specs.Invariant.{RealmHolds};
ghost use Rattle.realm_law.specs.Totals.{over_shards, names_of_shard, IsAtRest};

/// In every legal history every part of the invariant holds after every event.
pub fn the_realm_holds()
    ensures { (settings : SettingsView) (history later : List EventOf)
        → IsSettings settings → Legal settings (history ++ later)
        → RealmHolds settings (world_of settings history) }
{}

/// From any world in which every part holds, reachable or not, an event that may come next keeps every
/// part; and every part holds before the first event.
pub fn each_event_keeps_the_realm()
    ensures start { (settings : SettingsView) → RealmHolds settings (start settings) }
    ensures events { (settings : SettingsView) (w : World) (e : EventOf)
        → IsSettings settings → RealmHolds settings w → IsNext settings w e
        → RealmHolds settings (happens settings w e) }
{}

/// A shard of a container that stands, whose header counts no tag, counts what is in the bucket map under its names:
/// the live ones, and the sum of their sizes, which stops at the end of 64 bits.
pub fn untagged_shards_count_their_names()
    ensures objects { (settings : SettingsView) (history : List EventOf) (zone container number : ℕ)
        → (row : BucketOf) (shard : ShardOf) → IsSettings settings → Legal settings history
        → row_in (world_of settings history).rows (state_of settings history) zone container ≡ Some row
        → is_standing (world_of settings history).rows (state_of settings history) container ≡ true
        → (state_of settings history).shards zone (shard_key row.id row.instance number) ≡ Some shard
        → (stats_of shard).tags ≡ 0
        → (stats_of shard).objects
        ≡ (counts_of (names_of_shard row number (heads history zone container))).objects }
    ensures bytes { (settings : SettingsView) (history : List EventOf) (zone container number : ℕ)
        → (row : BucketOf) (shard : ShardOf) → IsSettings settings → Legal settings history
        → row_in (world_of settings history).rows (state_of settings history) zone container ≡ Some row
        → is_standing (world_of settings history).rows (state_of settings history) container ≡ true
        → (state_of settings history).shards zone (shard_key row.id row.instance number) ≡ Some shard
        → (stats_of shard).tags ≡ 0
        → (stats_of shard).bytes
        ≡ min (counts_of (names_of_shard row number (heads history zone container))).bytes greatest }
{}

/// Where no name of a container that stands has a tag, the headers of the shards of its row count together what is
/// in its bucket map: the live names, and the sum of their sizes. What a header shows of bytes stops at
/// the end of 64 bits, and with such headers so does their sum.
pub fn settled_containers_count_their_maps()
    ensures objects { (settings : SettingsView) (history : List EventOf) (zone container : ℕ) (row : BucketOf)
        → IsSettings settings → Legal settings history
        → IsAtRest (world_of settings history) zone container row
        → over_shards (λ s. (stats_of s).objects) (state_of settings history) zone row
        ≡ (counts_of (heads history zone container)).objects }
    ensures bytes { (settings : SettingsView) (history : List EventOf) (zone container : ℕ) (row : BucketOf)
        → IsSettings settings → Legal settings history
        → IsAtRest (world_of settings history) zone container row
        → over_shards (sum_over byte_count) (state_of settings history) zone row
        ≡ (counts_of (heads history zone container)).bytes }
    ensures shown { (settings : SettingsView) (history : List EventOf) (zone container : ℕ) (row : BucketOf)
        → IsSettings settings → Legal settings history
        → IsAtRest (world_of settings history) zone container row
        → min (over_shards (λ s. (stats_of s).bytes) (state_of settings history) zone row) greatest
        ≡ min (counts_of (heads history zone container)).bytes greatest }
{}

/// Where the headers of the shards of a row count no tag, no name of the container has one.
pub fn counts_without_tags_are_of_settled_names()
    ensures { (st : State) (zone : ℕ) (row : BucketOf) (name : List ℕ)
        → 1 ≤ row.shards
        → over_shards (λ s. (stats_of s).tags) st zone row ≡ 0
        → is_settled (entry_of_name st zone row name) ≡ true }
{}
