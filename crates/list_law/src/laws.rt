//! Laws of the definitions: the functions here do nothing.
ghost use Rattle.std.specs.Prelude.{◌≡◌, ℕ, true, List};
ghost use Rattle.std.specs.List.{Contains};
ghost use Rattle.realm_model.specs.Containers.{is_standing};
ghost use Rattle.realm_model.specs.Settings.{SettingsView, IsSettings};
ghost use Rattle.realm_model.specs.Phases.{ActorId};
ghost use Rattle.realm_model.specs.Maps.{slot_at, heads};
ghost use Rattle.realm_model.specs.Owns.{OwnEvent, own_events};
ghost use Rattle.realm_model.specs.Histories.{world_of, state_of, account_of, Legal};
ghost use Rattle.object_words.specs.declared.head.HeadSeen.{HeadSeen as HeadOf};
ghost use Rattle.realm_model.specs.declared.event.Event.{Event as EventOf};
ghost use Rattle.realm_model.specs.declared.event.Reply.TheVariants.{Head as head_reply};
ghost use Rattle.realm_model.specs.declared.op.Op.TheVariants.{HeadRead};
ghost use Rattle.task_list.specs.Repairs.{may_stand};
ghost use Rattle.list_words.specs.declared.row.ListedRow.{ListedRow as RowOf};
ghost use Rattle.list_words.specs.Listings.{rows_of};
ghost use Rattle.task_list.specs.declared.request.ListRequest.{ListRequest as RequestOf};
ghost use Rattle.task_list.specs.Listed.{ListedBy};
ghost use Rattle.list_law.specs.Maps.{live_names, slot_after, AreOfMap};

/// The rows of a listing that ends in a legal history, whatever others do between its events, are those
/// of a map in which each name has what the container had under it at one of the listing's own events.
/// The container is the one whose row its last own bucket read showed, and it stands at the end.
pub fn listings_are_of_a_map()
    ensures { (settings : SettingsView) (history : List EventOf) (actor : ActorId)
        → (r : RequestOf) (rows : List RowOf) → IsSettings settings → Legal settings history
        → (listed : ListedBy r rows (account_of settings history actor) (own_events history actor))
        → is_standing (world_of settings history).rows (state_of settings history) listed.row.id ≡ true
        → AreOfMap history r.zone r.command listed.row.id rows (own_events history actor) }
{}

/// Where no name of the container, which stands at the end, changed from the listing's first event to its last, the rows are those
/// of the container's map.
pub fn calm_listings_are_of_the_map()
    ensures { (settings : SettingsView) (history : List EventOf) (actor : ActorId)
        → (r : RequestOf) (rows : List RowOf) → IsSettings settings → Legal settings history
        → (listed : ListedBy r rows (account_of settings history actor) (own_events history actor))
        → is_standing (world_of settings history).rows (state_of settings history) listed.row.id ≡ true
        → ((own : OwnEvent) (name : List ℕ) → Contains (own_events history actor) own
        → slot_after history own.number r.zone listed.row.id name ≡ slot_at (heads history r.zone listed.row.id) name)
        → rows ≡ rows_of r.command (live_names (heads history r.zone listed.row.id)) }
{}

/// What a read of a head shows may stand in an index: the stamp of an object is of its own zone. So a
/// listing suggests it wherever a tag was due at the name's page.
pub fn heads_may_be_suggested()
    ensures { (settings : SettingsView) (history : List EventOf) (actor : ActorId)
        → (own : OwnEvent) (zone container : ℕ) (name : List ℕ) (head : HeadOf) (clock : ℕ)
        → IsSettings settings → Legal settings history → Contains (own_events history actor) own
        → own.op ≡ HeadRead zone container name → own.reply ≡ head_reply head clock → may_stand head.slot ≡ true }
{}
