//! The functions here do nothing: each is a law of the definitions.
ghost use Rattle.std.specs.Prelude.{◌≡◌, ℕ, ◌≤◌, List, [], ◌∷◌, ◌++◌, length, take, drop, true, unwrap_or, Some};
ghost use Rattle.std.specs.List.{AllZip, concat};
ghost use Rattle.rgw_types.specs.declared.stamp.Stamp.{Stamp as StampOf};
ghost use Rattle.rgw_types.specs.Stripes.{ManifestView, tails_of};
ghost use Rattle.rgw_model.specs.declared.slot.Slot.TheVariants as Slots;
ghost use Rattle.manifest.specs.Ranges.{part_size, parts_of, AreContents};
ghost use Rattle.object_words.specs.declared.head.HeadSeen.{HeadSeen as HeadSeenOf};
ghost use Rattle.object_words.specs.declared.head.NewHead.{NewHead as NewHeadOf};
ghost use Rattle.object_words.specs.declared.head.SeenSlot.TheVariants.{Live};
ghost use Rattle.object_words.specs.Keys.{head_key, tail_key};
ghost use Rattle.object_words.specs.Tails.{is_there};
ghost use Rattle.realm_model.specs.Settings.{SettingsView};
ghost use Rattle.realm_model.specs.Accounts.{slot_now};
ghost use Rattle.realm_model.specs.Maps.{content_of, whole_bytes, heads};
ghost use Rattle.realm_model.specs.Phases.{ActorId, opened};
ghost use Rattle.realm_model.specs.Stripes.{has_stripe, IsNamed};
ghost use Rattle.realm_model.specs.Worlds.{World, start, happens};
ghost use Rattle.realm_model.specs.Histories.{world_of, state_of, phase_of, IsNext, Legal};
ghost use Rattle.realm_model.specs.declared.op.Op.TheVariants.{HeadRead, TailRead};
ghost use Rattle.realm_model.specs.declared.event.Event.{Event as EventOf};
ghost use Rattle.realm_model.specs.declared.event.Reply.TheVariants.{Bytes, Head as head_reply};
ghost use Rattle.stripe_law.specs.Invariant.{Holds, StripesHoldIn};
ghost use Rattle.stripe_law.specs.Reading.{IsStored, contents_at, IsPiece};

/// In every legal history every part holds, after each of its events, and after each one that may come
/// next.
pub fn stripes_and_frames_hold()
    ensures holds { (settings : SettingsView) (history : List EventOf)
        → Legal settings history → Holds settings (world_of settings history) }
    ensures next { (settings : SettingsView) (history : List EventOf) (e : EventOf)
        → Legal settings history → IsNext settings (world_of settings history) e
        → Holds settings (happens settings (world_of settings history) e) }
{}

/// From any world, reachable or not, an event that may come next keeps every part; those about heads,
/// actors and what was made need no other part for it. Every part holds before the first event.
pub fn events_keep_what_holds()
    ensures start { (settings : SettingsView) → Holds settings (start settings) }
    ensures events { (settings : SettingsView) (w : World) (e : EventOf)
        → IsNext settings w e → StripesHoldIn w → StripesHoldIn (happens settings w e) }
    ensures every { (settings : SettingsView) (w : World) (e : EventOf)
        → IsNext settings w e → Holds settings w → Holds settings (happens settings w e) }
{}

/// A tail that a live head names exists, with the bytes of its making, as many as the manifest says.
pub fn named_tails_exist()
    ensures named { (settings : SettingsView) (history : List EventOf) → Legal settings history
        → (zone write part : ℕ) → IsNamed (state_of settings history) zone write part
        → is_there ((state_of settings history).tails zone (tail_key write part)) ≡ true }
    ensures stored { (settings : SettingsView) (history : List EventOf) → Legal settings history
        → (zone container : ℕ) (name : List ℕ) (new : NewHeadOf) (stamp : StampOf)
        → ((state_of settings history).heads zone (head_key container name)).slot ≡ Live new stamp
        → (part : ℕ) → 1 ≤ part → part ≤ tails_of new.manifest
        → IsStored history ((state_of settings history).tails zone (tail_key new.manifest.write part))
        zone new.manifest.write part (part_size new.manifest part) }
{}

/// A stripe is in at most one place: being made by one actor, named by one head, or replaced by one
/// actor's change.
pub fn a_stripe_is_in_one_place()
    ensures heads { (settings : SettingsView) (history : List EventOf) → Legal settings history
        → (zone container other : ℕ) (name another : List ℕ) (write part : ℕ)
        → has_stripe ((state_of settings history).heads zone (head_key container name)).slot write part ≡ true
        → has_stripe ((state_of settings history).heads zone (head_key other another)).slot write part ≡ true
        → head_key container name ≡ head_key other another }
    ensures makers { (settings : SettingsView) (history : List EventOf) → Legal settings history
        → (a b : ActorId) (zone write holder : ℕ) (sizes others : List ℕ)
        → (phase_of settings history a).stripes.own zone write holder ≡ opened sizes
        → (phase_of settings history b).stripes.own zone write holder ≡ opened others → a ≡ b }
    ensures changers { (settings : SettingsView) (history : List EventOf) → Legal settings history
        → (a b : ActorId) (zone write holder : ℕ) (m n : ManifestView)
        → (phase_of settings history a).stripes.olds zone write holder ≡ Some m
        → (phase_of settings history b).stripes.olds zone write holder ≡ Some n → a ≡ b }
    ensures made_or_named { (settings : SettingsView) (history : List EventOf) → Legal settings history
        → (a : ActorId) (zone write part : ℕ) (sizes : List ℕ)
        → (phase_of settings history a).stripes.own zone write write ≡ opened sizes
        → IsNamed (state_of settings history) zone write part → ⊥ }
    ensures replaced_or_named { (settings : SettingsView) (history : List EventOf) → Legal settings history
        → (a : ActorId) (zone write part : ℕ) (m : ManifestView)
        → (phase_of settings history a).stripes.olds zone write write ≡ Some m
        → IsNamed (state_of settings history) zone write part → ⊥ }
    ensures made_or_replaced { (settings : SettingsView) (history : List EventOf) → Legal settings history
        → (a b : ActorId) (zone write holder : ℕ) (sizes : List ℕ) (m : ManifestView)
        → (phase_of settings history a).stripes.own zone write holder ≡ opened sizes
        → (phase_of settings history b).stripes.olds zone write holder ≡ Some m → ⊥ }
{}

/// The first bytes of a live head and those of its tails are as many as the manifest says, and one after
/// another they are the bytes of its slot in the bucket map.
pub fn an_object_is_its_parts()
    ensures parts { (settings : SettingsView) (history : List EventOf) → Legal settings history
        → (zone container : ℕ) (name : List ℕ) (new : NewHeadOf) (stamp : StampOf)
        → ((state_of settings history).heads zone (head_key container name)).slot ≡ Live new stamp
        → AreContents new.manifest (contents_at (state_of settings history).tails zone new) }
    ensures size { (settings : SettingsView) (history : List EventOf) → Legal settings history
        → (zone container : ℕ) (name : List ℕ) (new : NewHeadOf) (stamp : StampOf)
        → ((state_of settings history).heads zone (head_key container name)).slot ≡ Live new stamp
        → length (concat (contents_at (state_of settings history).tails zone new)) ≡ new.manifest.size }
    ensures slot { (settings : SettingsView) (history : List EventOf) → Legal settings history
        → (zone container : ℕ) (name : List ℕ) (new : NewHeadOf) (stamp : StampOf)
        → ((state_of settings history).heads zone (head_key container name)).slot ≡ Live new stamp
        → slot_now (heads history) (world_of settings history).stripes.made zone container name
        ≡ Slots.Live (record {
          bytes = concat (contents_at (state_of settings history).tails zone new);
          kind = new.kind;
          meta = new.meta;
          etag = new.etag;
        }) stamp }
{}

/// A read of a tail that was answered shows the bytes that the tail had when its actor read the head,
/// whatever others did in between. So the pieces of a range, read one by one, are that range of the slot
/// that the read of the head showed.
pub fn answered_reads_show_the_slot()
    ensures slot { (settings : SettingsView) (before later : List EventOf) (read : EventOf)
        → Legal settings (before ++ read ∷ later)
        → (zone container : ℕ) (name : List ℕ) (seen : HeadSeenOf) (clock : ℕ) (new : NewHeadOf) (stamp : StampOf)
        → read.op ≡ HeadRead zone container name → read.reply ≡ head_reply seen clock
        → seen.slot ≡ Live new stamp
        → slot_now (heads before) (world_of settings before).stripes.made zone container name
        ≡ Slots.Live (content_of (world_of settings before).stripes.made zone new) stamp }
    ensures piece { (settings : SettingsView) (before between : List EventOf) (read tail : EventOf)
        → Legal settings (before ++ read ∷ (between ++ tail ∷ []))
        → (zone container : ℕ) (name : List ℕ) (seen : HeadSeenOf) (clock : ℕ) (new : NewHeadOf) (stamp : StampOf)
        → read.op ≡ HeadRead zone container name → read.reply ≡ head_reply seen clock
        → seen.slot ≡ Live new stamp
        → (part start count : ℕ) (bytes : List ℕ) → 1 ≤ part → part ≤ tails_of new.manifest
        → tail.op ≡ TailRead zone new.manifest.write part start count → tail.reply ≡ Bytes bytes
        → bytes ≡ take count (drop start
        (unwrap_or ((world_of settings before).stripes.made zone new.manifest.write part) [])) }
    ensures range { (settings : SettingsView) (before later : List EventOf) (read : EventOf)
        → Legal settings (before ++ read ∷ later)
        → (zone container : ℕ) (name : List ℕ) (seen : HeadSeenOf) (clock : ℕ) (new : NewHeadOf) (stamp : StampOf)
        → read.op ≡ HeadRead zone container name → read.reply ≡ head_reply seen clock
        → seen.slot ≡ Live new stamp → (start count : ℕ) (answers : List (List ℕ))
        → AllZip (IsPiece later zone new) (parts_of new.manifest start count) answers
        → concat answers ≡ take count (drop start
        (whole_bytes (world_of settings before).stripes.made zone new)) }
{}

/// What was made stays as it was made. So an object that a head showed keeps its bytes, also once the
/// head shows another one.
pub fn what_was_made_stays()
    ensures made { (settings : SettingsView) (history later : List EventOf) → Legal settings (history ++ later)
        → (zone write part : ℕ) (bytes : List ℕ)
        → (world_of settings history).stripes.made zone write part ≡ Some bytes
        → (world_of settings (history ++ later)).stripes.made zone write part ≡ Some bytes }
    ensures bytes { (settings : SettingsView) (history later : List EventOf) → Legal settings (history ++ later)
        → (zone container : ℕ) (name : List ℕ) (new : NewHeadOf) (stamp : StampOf)
        → ((state_of settings history).heads zone (head_key container name)).slot ≡ Live new stamp
        → whole_bytes (world_of settings (history ++ later)).stripes.made zone new
        ≡ whole_bytes (world_of settings history).stripes.made zone new }
{}

/// A read of a tail that is allowed is answered, with as many bytes as it asks for.
pub fn allowed_reads_are_answered()
    ensures bytes { (settings : SettingsView) (history : List EventOf) (e : EventOf)
        → Legal settings (history ++ e ∷ [])
        → (zone write part start count : ℕ) → e.op ≡ TailRead zone write part start count
        → e.reply ≡ Bytes (take count (drop start
        (unwrap_or ((world_of settings history).stripes.made zone write part) []))) }
    ensures length { (settings : SettingsView) (history : List EventOf) (e : EventOf)
        → Legal settings (history ++ e ∷ [])
        → (zone write part start count : ℕ) → e.op ≡ TailRead zone write part start count
        → length (take count (drop start
        (unwrap_or ((world_of settings history).stripes.made zone write part) []))) ≡ count }
{}
