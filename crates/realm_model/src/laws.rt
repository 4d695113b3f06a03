//! Laws of the definitions: the functions here do nothing.
ghost use Rattle.std.specs.Prelude.{◌≡◌, ◌+◌, ◌<◌, ◌^◌, ◌++◌, ◌∷◌, [], ℕ, List, length, true, unwrap_or, Some};
ghost use Rattle.object_words.specs.declared.why.Why.{Why as WhyOf};
ghost use Rattle.object_words.specs.Keys.{head_key, tail_key};
ghost use Rattle.object_words.specs.Tails.{no_tail};
ghost use Rattle.realm_model.specs.Maps.{slot_at, heads};
ghost use Rattle.realm_model.specs.Accounts.{Decided};
ghost use Rattle.realm_model.specs.Decisions.{Stands};
ghost use Rattle.realm_model.specs.Doors.{mine, NoneByPass};
ghost use Rattle.realm_model.specs.Settings.{SettingsView};
ghost use Rattle.realm_model.specs.States.{State, Touch, number_next, clock_at, at_moment, touched};
ghost use Rattle.realm_model.specs.Stripes.{HasFrameSum};
ghost use Rattle.realm_model.specs.Suits.{Suits};
ghost use Rattle.realm_model.specs.Worlds.{actor_of};
ghost use Rattle.realm_model.specs.Steps.{reply_of, touch_of, after};
ghost use Rattle.realm_model.specs.Phases.{ActorId, fresh};
ghost use Rattle.realm_model.specs.Allowed.{allowed};
ghost use Rattle.realm_model.specs.Histories.{world_of, state_of, phase_of, account_of, doings_of, done, answer_after, IsNext, Legal, with_answers, all_allowed};
ghost use Rattle.realm_model.specs.Owns.{clock_after, own_events, learnt_from, NoneBy};
ghost use Rattle.realm_model.specs.Rises.{Rises};
ghost use Rattle.realm_model.specs.Touches.{KeepsOthers, is_read};
ghost use Rattle.realm_model.specs.declared.op.Op.{Op as OpOf};
ghost use Rattle.realm_model.specs.declared.op.Op.TheVariants.{TailMake};
ghost use Rattle.realm_model.specs.declared.event.Event.{Event as EventOf};
ghost use Rattle.realm_model.specs.declared.event.Reply.TheVariants.{No};

/// What an event is answered and what it leaves follow from the history before it; a front of a legal
/// history is legal.
pub fn events_follow_from_the_history()
    ensures answer { (settings : SettingsView) (history : List EventOf) (e : EventOf)
        → Legal settings (history ++ e ∷ []) → e.reply ≡ answer_after settings history e.op e.moment }
    ensures state { (settings : SettingsView) (history : List EventOf) (e : EventOf)
        → state_of settings (history ++ e ∷ [])
        ≡ after settings (at_moment (state_of settings history) e.moment) e.op }
    ensures front { (settings : SettingsView) (front back : List EventOf)
        → Legal settings (front ++ back) → Legal settings front }
    ensures next { (settings : SettingsView) (history : List EventOf) (e : EventOf)
        → Legal settings history → IsNext settings (world_of settings history) e
        → Legal settings (history ++ e ∷ []) }
{}

/// Events are numbered in their order, and the clock is the greatest moment so far.
pub fn events_are_numbered()
    ensures count { (settings : SettingsView) (history : List EventOf)
        → (state_of settings history).count ≡ length history }
    ensures clock { (settings : SettingsView) (history : List EventOf)
        → (state_of settings history).clock ≡ clock_after 0 history }
{}

/// A history whose answers and permissions compute is legal.
pub fn computed_histories_are_legal()
    ensures { (settings : SettingsView) (history : List EventOf)
        → with_answers settings history ≡ history → all_allowed settings history ≡ true
        → Legal settings history }
{}

/// What an actor knows and may do next follows from its own events alone.
pub fn others_change_no_phase()
    ensures phase { (settings : SettingsView) (history between : List EventOf) (actor : ActorId)
        → NoneBy actor between
        → phase_of settings (history ++ between) actor ≡ phase_of settings history actor }
    ensures account { (settings : SettingsView) (history between : List EventOf) (actor : ActorId)
        → NoneBy actor between
        → account_of settings (history ++ between) actor ≡ account_of settings history actor }
    ensures allowed { (settings : SettingsView) (history between : List EventOf) (actor : ActorId) (op : OpOf)
        → NoneBy actor between
        → allowed settings (phase_of settings (history ++ between) actor) op
        ≡ allowed settings (phase_of settings history actor) op }
    ensures own { (settings : SettingsView) (history : List EventOf) (actor : ActorId)
        → phase_of settings history actor ≡ learnt_from fresh (own_events history actor) }
{}

/// An event touches at most one object. A refused one, and a read, touch none.
pub fn an_event_touches_one_object()
    ensures others { (settings : SettingsView) (st : State) (touch : Touch)
        → KeepsOthers touch st (touched settings st touch) }
    ensures refused { (settings : SettingsView) (st : State) (op : OpOf) (why : WhyOf)
        → reply_of settings st op ≡ No why → touched settings st (touch_of settings st op) ≡ st }
    ensures read { (settings : SettingsView) (st : State) (op : OpOf)
        → is_read op ≡ true → touched settings st (touch_of settings st op) ≡ st }
{}

/// No event lowers a stamp, a version or a revision.
pub fn no_event_lowers_a_number()
    ensures { (settings : SettingsView) (history : List EventOf) (e : EventOf) → length history < 2 ^ 62
        → Rises (state_of settings history) (state_of settings (history ++ e ∷ [])) }
{}

/// The bucket maps of a history are what its heads hold.
pub fn maps_are_what_heads_hold()
    ensures slots { (settings : SettingsView) (history : List EventOf) → Legal settings history
        → (zone container : ℕ) (name : List ℕ)
        → slot_at (heads history zone container) name
        ≡ ((state_of settings history).heads zone (head_key container name)).slot }
    ensures world { (settings : SettingsView) (history : List EventOf)
        → (world_of settings history).maps ≡ heads history }
{}

/// A tail is made where none was, and keeps the bytes with which it was made.
pub fn a_tail_is_made_once()
    ensures once { (settings : SettingsView) (history : List EventOf) (e : EventOf)
        → (zone write part : ℕ) (bytes : List ℕ) → Legal settings (history ++ e ∷ [])
        → e.op ≡ TailMake zone write part bytes
        → (state_of settings history).tails zone (tail_key write part) ≡ no_tail }
    ensures bytes { (settings : SettingsView) (history : List EventOf) → Legal settings history
        → (zone write part : ℕ) → ((state_of settings history).tails zone (tail_key write part)).bytes
        ≡ unwrap_or ((world_of settings history).stripes.made zone write part) [] }
{}

/// In each zone the free frames, with the frames that each object takes, are all its frames.
pub fn frames_are_free_or_taken()
    ensures { (settings : SettingsView) (history : List EventOf) (zone : ℕ)
        → HasFrameSum settings (state_of settings history) zone }
{}

/// The answer of the step is of a kind that the operation may have.
pub fn replies_suit_their_operations()
    ensures { (settings : SettingsView) (st : State) (op : OpOf) → Suits op (reply_of settings st op) }
{}

/// An event adds itself to its actor's doings.
pub fn an_own_event_is_done()
    ensures { (settings : SettingsView) (history : List EventOf) (e : EventOf)
        → doings_of settings (history ++ e ∷ []) (actor_of e)
        ≡ done (doings_of settings history (actor_of e)) (heads history)
        (world_of settings history).stripes.made e.op e.reply
        (number_next (state_of settings history)) (clock_at (state_of settings history).clock e.moment) }
{}

/// The event that decides a reply stands in the history, with the slots of the bucket map just before
/// and just after it.
pub fn deciding_events_stand()
    ensures decided { (settings : SettingsView) (history : List EventOf) (actor : ActorId) (d : Decided)
        → (account_of settings history actor).decided ≡ Some d → Stands settings history actor d }
    ensures source { (settings : SettingsView) (history : List EventOf) (actor : ActorId) (d : Decided)
        → (account_of settings history actor).source ≡ Some d → Stands settings history actor d }
    ensures target { (settings : SettingsView) (history : List EventOf) (actor : ActorId) (d : Decided)
        → (account_of settings history actor).target ≡ Some d → Stands settings history actor d }
{}

/// Events of other passes, and then an own one, add its number to those of the pass, and no other.
pub fn a_step_adds_its_number()
    ensures { (pass : ℕ) (seen between : List EventOf) (e : EventOf)
        → NoneByPass pass between → e.pass ≡ pass
        → mine pass ((seen ++ between) ++ e ∷ []) ≡ mine pass seen ++ (length (seen ++ between) + 1) ∷ [] }
{}
