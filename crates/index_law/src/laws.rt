//! Laws of the definitions: the functions here do nothing.
ghost use Rattle.std.specs.Prelude.{◌≡◌, ◌<◌, ◌≤◌, ◌^◌, ◌++◌, ◌∷◌, [], ℕ, List, length, true, false, Some, None, IfSome, IsSomeAnd, is_some};
ghost use Rattle.rgw_types.specs.declared.pool_key.Key.{Key as KeyOf};
ghost use Rattle.rgw_types.specs.Stamps.{IsEarlier};
ghost use Rattle.object_words.specs.declared.bucket.Bucket.{Bucket as BucketOf};
ghost use Rattle.object_words.specs.declared.entry.Guard.{Guard as GuardOf};
ghost use Rattle.object_words.specs.declared.head.Changed.{Changed as ChangedOf};
ghost use Rattle.object_words.specs.declared.head.Conditions.{Conditions as ConditionsOf};
ghost use Rattle.object_words.specs.declared.head.NewHead.{NewHead as NewHeadOf};
ghost use Rattle.object_words.specs.declared.shard.ShardStats.{ShardStats as StatsOf};
ghost use Rattle.object_words.specs.declared.shard.Fate.TheVariants.{Serving};
ghost use Rattle.object_words.specs.Heads.{seen_stamp, is_live};
ghost use Rattle.object_words.specs.HoldCalls.{hold_number};
ghost use Rattle.object_words.specs.Names.{at};
ghost use Rattle.object_words.specs.Refusals.{change_refusal};
ghost use Rattle.realm_model.specs.Facts.{Home as HomeOf, Instance as InstanceOf};
ghost use Rattle.object_words.specs.Keys.{shard_key};
ghost use Rattle.object_words.specs.Shards.{object_count, byte_count, stats_of};
ghost use Rattle.realm_model.specs.Containers.{row_in, is_standing, key_of_name, entry_of_name, Shows, is_settled};
ghost use Rattle.realm_model.specs.Counts.{live_count, live_bytes};
ghost use Rattle.realm_model.specs.Maps.{slot_at, heads};
ghost use Rattle.realm_model.specs.Settings.{SettingsView, IsSettings};
ghost use Rattle.realm_model.specs.Worlds.{World, start, happens};
ghost use Rattle.realm_model.specs.Histories.{world_of, state_of, IsNext, Legal};
ghost use Rattle.realm_model.specs.declared.op.Op.TheVariants.{BucketSwap, HeadWrite, Stats as stats_op};
ghost use Rattle.realm_model.specs.declared.event.Event.{Event as EventOf};
ghost use Rattle.realm_model.specs.declared.event.Reply.TheVariants.{Changed, Done, Stats};
ghost use Rattle.realm_model.specs.Rises.{found_in};
ghost use Rattle.index_law.specs.Tables.{heads_of, rows_of};
ghost use Rattle.index_law.specs.Stamps.{StampsGiven};
ghost use Rattle.index_law.specs.Serving.{IsServing, NoneCloses, ShardsServe};
ghost use Rattle.index_law.specs.Holds.{HoldsIn};
ghost use Rattle.index_law.specs.Works.{IsUnnamed};
ghost use Rattle.index_law.specs.Invariants.{IndexHolds};

/// In every legal history all parts hold after every event: those over entries, heads, rows and tags;
/// those over stamps; that shards of rows are there; and what may hold them.
pub fn the_index_holds()
    ensures tables { (settings : SettingsView) (history later : List EventOf)
        → IsSettings settings → Legal settings (history ++ later)
        → IndexHolds (world_of settings history) }
    ensures stamps { (settings : SettingsView) (history later : List EventOf)
        → IsSettings settings → Legal settings (history ++ later)
        → StampsGiven (heads_of (state_of settings history).heads) (world_of settings history).stamps.slots }
    ensures shards { (settings : SettingsView) (history later : List EventOf)
        → Legal settings (history ++ later)
        → ShardsServe (state_of settings history).shards (rows_of (state_of settings history).root)
        (world_of settings history).phases }
    ensures holds { (settings : SettingsView) (history later : List EventOf)
        → IsSettings settings → Legal settings (history ++ later)
        → HoldsIn (world_of settings history) }
{}

/// From any world in which the parts hold, an event that may come next keeps them; and they hold before
/// the first event.
pub fn each_event_keeps_the_index()
    ensures start { (settings : SettingsView) → IndexHolds (start settings) }
    ensures tables { (settings : SettingsView) (w : World) (e : EventOf)
        → IsSettings settings → IndexHolds w → IsNext settings w e
        → IndexHolds (happens settings w e) }
    ensures stamps { (settings : SettingsView) (w : World) (e : EventOf)
        → IndexHolds w → StampsGiven (heads_of w.state.heads) w.stamps.slots → IsNext settings w e
        → StampsGiven (heads_of (happens settings w e).state.heads) (happens settings w e).stamps.slots }
    ensures shards { (settings : SettingsView) (w : World) (e : EventOf)
        → ShardsServe w.state.shards (rows_of w.state.root) w.phases → IsNext settings w e
        → ShardsServe (happens settings w e).state.shards (rows_of (happens settings w e).state.root)
        (happens settings w e).phases }
    ensures free { (settings : SettingsView) → HoldsIn (start settings) }
    ensures holds { (settings : SettingsView) (w : World) (e : EventOf)
        → IsSettings settings → IndexHolds w → HoldsIn w → IsNext settings w e
        → HoldsIn (happens settings w e) }
{}

/// A name without a tag, of a container that stands and has a row in the zone, is listed and counted as its head:
/// its entry shows the slot that the bucket map has, and is in its shard exactly where that is live.
pub fn settled_names_are_shown()
    ensures shown { (settings : SettingsView) (history : List EventOf) (zone container : ℕ)
        → (name : List ℕ) (row : BucketOf) → IsSettings settings → Legal settings history
        → row_in (world_of settings history).rows (state_of settings history) zone container ≡ Some row
        → is_standing (world_of settings history).rows (state_of settings history) container ≡ true
        → is_settled (entry_of_name (state_of settings history) zone row name) ≡ true
        → Shows (entry_of_name (state_of settings history) zone row name)
        (slot_at (heads history zone container) name) }
    ensures listed { (settings : SettingsView) (history : List EventOf) (zone container : ℕ)
        → (name : List ℕ) (row : BucketOf) → IsSettings settings → Legal settings history
        → row_in (world_of settings history).rows (state_of settings history) zone container ≡ Some row
        → is_standing (world_of settings history).rows (state_of settings history) container ≡ true
        → is_settled (entry_of_name (state_of settings history) zone row name) ≡ true
        → is_some (found_in ((state_of settings history).shards zone (key_of_name row name)) name)
        ≡ is_live (slot_at (heads history zone container) name) }
    ensures counted { (settings : SettingsView) (history : List EventOf) (zone container : ℕ)
        → (name : List ℕ) (row : BucketOf) → IsSettings settings → Legal settings history
        → row_in (world_of settings history).rows (state_of settings history) zone container ≡ Some row
        → is_standing (world_of settings history).rows (state_of settings history) container ≡ true
        → is_settled (entry_of_name (state_of settings history) zone row name) ≡ true
        → object_count (entry_of_name (state_of settings history) zone row name)
        ≡ live_count (slot_at (heads history zone container) name) }
    ensures sized { (settings : SettingsView) (history : List EventOf) (zone container : ℕ)
        → (name : List ℕ) (row : BucketOf) → IsSettings settings → Legal settings history
        → row_in (world_of settings history).rows (state_of settings history) zone container ≡ Some row
        → is_standing (world_of settings history).rows (state_of settings history) container ≡ true
        → is_settled (entry_of_name (state_of settings history) zone row name) ≡ true
        → byte_count (entry_of_name (state_of settings history) zone row name)
        ≡ live_bytes (slot_at (heads history zone container) name) }
{}

/// A container's row has a shard at least. Each of them is there and serves, and a number that the row gave
/// holds it, or none. Where no event before closed a shard, each takes changes.
pub fn shards_of_rows_serve()
    ensures some { (settings : SettingsView) (history : List EventOf) (zone container : ℕ) (row : BucketOf)
        → IsSettings settings → Legal settings history
        → row_in (world_of settings history).rows (state_of settings history) zone container ≡ Some row
        → 1 ≤ row.shards }
    ensures held { (settings : SettingsView) (history : List EventOf) (zone container shard : ℕ)
        → (row : BucketOf) → IsSettings settings → Legal settings history
        → row_in (world_of settings history).rows (state_of settings history) zone container ≡ Some row
        → shard < row.shards
        → IsSomeAnd ((state_of settings history).shards zone (shard_key container row.instance shard))
        (λ s. (s.fate ≡ Serving) × (hold_number s.hold ≤ row.number)) }
    ensures free { (settings : SettingsView) (history : List EventOf) (zone container shard : ℕ)
        → (row : BucketOf) → Legal settings history → NoneCloses history
        → row_in (world_of settings history).rows (state_of settings history) zone container ≡ Some row
        → shard < row.shards
        → IsSomeAnd ((state_of settings history).shards zone (shard_key container row.instance shard))
        IsServing }
{}

/// A container that zone 1 made and that does not stand any more never stands again.
pub fn a_container_that_is_gone_stays_gone()
    ensures { (settings : SettingsView) (history later : List EventOf) (container : ℕ) (home : HomeOf)
        → IsSettings settings → Legal settings (history ++ later)
        → (world_of settings history).rows.homes container ≡ Some home
        → is_standing (world_of settings history).rows (state_of settings history) container ≡ false
        → is_standing (world_of settings (history ++ later)).rows (state_of settings (history ++ later)) container
        ≡ false }
{}

/// A shard that a row named and that none names any more takes no change.
pub fn a_shard_that_is_left_takes_no_change()
    ensures { (settings : SettingsView) (history : List EventOf) (zone container number : ℕ)
        → (instance : InstanceOf) (shard : ℕ) → IsSettings settings → Legal settings history
        → (world_of settings history).rows.instances zone container number ≡ Some instance
        → IsUnnamed (rows_of (state_of settings history).root) zone container number
        → shard < instance.shards
        → IsSomeAnd ((state_of settings history).shards zone (shard_key container number shard))
        (λ s. is_some (change_refusal s) ≡ true) }
{}

/// A container whose row is taken away in zone 1 has no live name there, then and ever after: its map stays as it is.
pub fn a_removed_container_is_empty()
    ensures now { (settings : SettingsView) (history : List EventOf) (e : EventOf) (name : List ℕ)
        → (expected : ℕ) (row : BucketOf) (object : List ℕ) → IsSettings settings
        → Legal settings (history ++ e ∷ [])
        → e.op ≡ BucketSwap 1 name expected None → e.reply ≡ Done
        → at ((state_of settings history).root 1).buckets name ≡ Some row
        → is_live (slot_at (heads history 1 row.id) object) ≡ false }
    ensures later { (settings : SettingsView) (history : List EventOf) (e : EventOf) (later : List EventOf)
        → (name : List ℕ) (expected : ℕ) (row : BucketOf) (object : List ℕ) → IsSettings settings
        → Legal settings (history ++ e ∷ later)
        → e.op ≡ BucketSwap 1 name expected None → e.reply ≡ Done
        → at ((state_of settings history).root 1).buckets name ≡ Some row
        → is_live (slot_at (heads (history ++ e ∷ later) 1 row.id) object) ≡ false }
    ensures map { (settings : SettingsView) (history : List EventOf) (e : EventOf) (later : List EventOf)
        → (name : List ℕ) (expected : ℕ) (row : BucketOf) → IsSettings settings
        → Legal settings (history ++ e ∷ later)
        → e.op ≡ BucketSwap 1 name expected None → e.reply ≡ Done
        → at ((state_of settings history).root 1).buckets name ≡ Some row
        → heads (history ++ e ∷ later) 1 row.id ≡ heads history 1 row.id }
{}

/// The statistics that a shard answers are the sums over its entries.
pub fn statistics_are_sums()
    ensures { (settings : SettingsView) (history : List EventOf) (e : EventOf)
        → (zone : ℕ) (key : KeyOf) (stats : StatsOf) → Legal settings (history ++ e ∷ [])
        → e.op ≡ stats_op zone key → e.reply ≡ Stats stats
        → IsSomeAnd ((state_of settings history).shards zone key) (λ s. stats ≡ stats_of s) }
{}

/// The stamp of a name rises with each change, and no stamp of a name is given twice. Stamps end with
/// 64 bits, so this is said of histories of fewer than 2^62 events.
pub fn a_change_has_a_new_stamp()
    ensures later { (settings : SettingsView) (history : List EventOf) (e : EventOf)
        → (zone container : ℕ) (name : List ℕ) (guard : GuardOf) (new : NewHeadOf)
        → (when_asked : ConditionsOf) (change : ChangedOf) → Legal settings (history ++ e ∷ [])
        → length history < 2 ^ 62
        → e.op ≡ HeadWrite zone container name guard new when_asked → e.reply ≡ Changed change
        → IfSome (seen_stamp (slot_at (heads history zone container) name))
        (λ before. IsEarlier before change.stamp) }
    ensures unused { (settings : SettingsView) (history : List EventOf) (e : EventOf)
        → (zone container : ℕ) (name : List ℕ) (guard : GuardOf) (new : NewHeadOf)
        → (when_asked : ConditionsOf) (change : ChangedOf) → IsSettings settings
        → Legal settings (history ++ e ∷ []) → length history < 2 ^ 62
        → e.op ≡ HeadWrite zone container name guard new when_asked → e.reply ≡ Changed change
        → (world_of settings history).stamps.slots container name change.stamp ≡ None }
{}
