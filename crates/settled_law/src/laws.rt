//! Laws of the definitions: the functions here do nothing.
ghost use Rattle.std.specs.Prelude.{◌≡◌, ◌++◌, ℕ, List, min};
ghost use Rattle.object_words.specs.declared.bucket.Bucket.{Bucket as BucketOf};
ghost use Rattle.object_words.specs.Numbers.{greatest};
ghost use Rattle.realm_model.specs.Counts.{counts_of};
ghost use Rattle.realm_model.specs.Maps.{heads};
ghost use Rattle.realm_model.specs.Settings.{SettingsView, IsSettings};
ghost use Rattle.realm_model.specs.Phases.{ActorId};
ghost use Rattle.realm_model.specs.Owns.{own_events, NoneBy};
ghost use Rattle.realm_model.specs.Histories.{account_of, Legal};
ghost use Rattle.realm_model.specs.declared.event.Event.{Event as EventOf};
ghost use Rattle.list_words.specs.declared.row.ListedRow.{ListedRow as RowOf};
ghost use Rattle.list_words.specs.Listings.{rows_of};
ghost use Rattle.list_law.specs.Maps.{live_names};
ghost use Rattle.task_list.specs.declared.request.ListRequest.{ListRequest as ListingOf};
ghost use Rattle.task_list.specs.Listed.{ListedBy};
ghost use Rattle.task_container.specs.declared.outcome.ContainerReply.TheVariants.{Counted, Removed};
ghost use Rattle.task_container.specs.declared.request.ContainerRequest.{ContainerRequest as CountOf};
ghost use Rattle.task_container.specs.Ends.{IsContainerReply};
ghost use Rattle.task_container.specs.Requests.{name_of};
ghost use Rattle.settled_law.specs.Removing.{IsRemovedEmpty};
ghost use Rattle.settled_law.specs.Resting.{Rests, IsLeftAtRest};

/// A listing begins when no change is under way in the shards of its container's row; up to its end none is
/// prepared there, the row is not swapped and the container stands. Its rows are those of the live names of the container's map.
pub fn listings_of_settled_containers_are_of_their_maps()
    ensures { (settings : SettingsView) (before during : List EventOf) (actor : ActorId)
        → (r : ListingOf) (row : BucketOf) (rows : List RowOf)
        → IsSettings settings → Legal settings (before ++ during)
        → NoneBy actor before → Rests settings before r.zone r.command.container row
        → IsLeftAtRest settings before during r.zone r.command.container row
        → ListedBy r rows (account_of settings (before ++ during) actor) (own_events (before ++ during) actor)
        → rows ≡ rows_of r.command (live_names (heads (before ++ during) r.zone row.id)) }
{}

/// A request counts a container; it begins when no change is under way in the shards of the container's
/// row; up to its end none is prepared there, the row is not swapped and the container stands. What it tells are the live names of the container's
/// map and the sum of their sizes, each up to the end of 64 bits.
pub fn counts_of_settled_containers_are_of_their_maps()
    ensures objects { (settings : SettingsView) (before during : List EventOf) (actor : ActorId)
        → (r : CountOf) (row shown : BucketOf) (objects bytes shards : ℕ)
        → IsSettings settings → Legal settings (before ++ during)
        → NoneBy actor before → Rests settings before r.zone (name_of r.command) row
        → IsLeftAtRest settings before during r.zone (name_of r.command) row
        → IsContainerReply r (Counted shown objects bytes) shards (account_of settings (before ++ during) actor)
        (own_events (before ++ during) actor)
        → objects ≡ min (counts_of (heads (before ++ during) r.zone row.id)).objects greatest }
    ensures bytes { (settings : SettingsView) (before during : List EventOf) (actor : ActorId)
        → (r : CountOf) (row shown : BucketOf) (objects bytes shards : ℕ)
        → IsSettings settings → Legal settings (before ++ during)
        → NoneBy actor before → Rests settings before r.zone (name_of r.command) row
        → IsLeftAtRest settings before during r.zone (name_of r.command) row
        → IsContainerReply r (Counted shown objects bytes) shards (account_of settings (before ++ during) actor)
        (own_events (before ++ during) actor)
        → bytes ≡ min (counts_of (heads (before ++ during) r.zone row.id)).bytes greatest }
{}

/// A request that removed a container took the row of its account away in zone 1, and no name of the container is live
/// there, at that event and ever after.
pub fn removed_containers_are_empty()
    ensures { (settings : SettingsView) (history : List EventOf) (actor : ActorId)
        → (r : CountOf) (shards : ℕ) → IsSettings settings → Legal settings history
        → IsContainerReply r Removed shards (account_of settings history actor) (own_events history actor)
        → IsRemovedEmpty settings history actor r.asker.account (name_of r.command) }
{}
