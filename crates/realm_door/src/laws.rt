//! Laws of doors: the functions here do nothing.
ghost use Rattle.std.specs.Prelude.{◌≡◌, ◌≢◌, ℕ, ◌≤◌, ◌^◌, List, ◌++◌, ◌∷◌, [], length};
ghost use Rattle.realm_model.specs.Settings.{SettingsView};
ghost use Rattle.realm_model.specs.Phases.{ActorId};
ghost use Rattle.realm_model.specs.Histories.{state_of, Legal};
ghost use Rattle.realm_model.specs.Owns.{NoneBy};
ghost use Rattle.realm_model.specs.Doors.{DoorView, NoneByPass};
ghost use Rattle.realm_model.specs.declared.event.Event.{Event as EventOf};
ghost use Rattle.realm_model.specs.declared.op.Op.{Op as OpOf};
ghost use Rattle.realm_door.specs.declared.door.Answered.{Answered as AnsweredOf};
ghost use Rattle.realm_door.specs.Waiting.{Waited, waiting_at};
ghost use Rattle.realm_door.specs.Steps.{IsCounted, begun, event_at, view_after, IsSame, Grows, Extends};

/// An own event that ends a legal history extends what is told, whatever the door.
pub fn own_events_extend_what_is_told()
    ensures { (settings : SettingsView) (d : DoorView) (between log : List EventOf) (op : OpOf) (moment : ℕ) (a : AnsweredOf)
        → NoneByPass d.pass between
        → log ≡ (d.seen ++ between) ++ event_at d op moment a.reply ∷ []
        → Legal settings log
        → a.number ≡ length log → a.clock ≡ (state_of settings log).clock → a.number ≤ 2 ^ 62
        → Extends settings d op moment a (view_after d log) }
{}

/// An actor's own events, and what they came to, stay as they are when others make events.
pub fn others_change_no_doings()
    ensures { (settings : SettingsView) (history between : List EventOf) (actor : ActorId)
        → NoneBy actor between
        → IsSame settings history (history ++ between) actor }
{}

/// What a door told grows with each call: it is the same actor with a longer history, and the other
/// actors of the pass did no more.
pub fn growth_adds_up()
    ensures none { (settings : SettingsView) (d : DoorView) → Grows settings d d }
    ensures both { (settings : SettingsView) (d e f : DoorView)
        → Grows settings d e → Grows settings e f → Grows settings d f }
{}

/// A caller that counts actors at first may always begin one.
pub fn actors_stay_counted()
    ensures begun { (d : DoorView) → IsCounted d → IsCounted (begun d) }
    ensures grown { (settings : SettingsView) (d e : DoorView)
        → Grows settings d e → IsCounted d → IsCounted e }
{}

/// While an actor acts through a door, the other actors of its pass wait: each is told a longer history,
/// in which its own events, and what they came to, are as they were.
pub fn others_wait()
    ensures { (settings : SettingsView) (d e waiting : DoorView)
        → Grows settings d e
        → waiting.pass ≡ d.pass → waiting.count ≢ d.count → waiting.seen ≡ d.seen
        → Waited settings waiting (waiting_at waiting e) }
{}

/// Waiting once and again is waiting.
pub fn waits_add_up()
    ensures none { (settings : SettingsView) (d : DoorView) → Waited settings d d }
    ensures both { (settings : SettingsView) (d e f : DoorView)
        → Waited settings d e → Waited settings e f → Waited settings d f }
{}
