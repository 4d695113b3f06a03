//! A law of what is asked: the function here does nothing.
ghost use Rattle.std.specs.Prelude.{◌≡◌, ℕ, Bool, IsTrue, false, List, Option};
ghost use Rattle.realm_model.specs.Settings.{SettingsView};
ghost use Rattle.realm_model.specs.Histories.{Legal};
ghost use Rattle.realm_model.specs.Doors.{DoorView};
ghost use Rattle.door_moments.specs.Acts.{Asks};

/// What was asked for some events and then for others was asked for all of them; for none nothing
/// is asked.
pub fn asking_adds_up()
    ensures none { (tells alone : Bool) (settings : SettingsView) (d : DoorView) (told : Option (List ℕ))
        → (IsTrue tells → Legal settings d.seen) → Asks (IsTrue tells) (IsTrue alone) settings false d d told told }
    ensures both { (tells alone : Bool) (settings now : SettingsView) (more : Bool) (d e f : DoorView) (a b c : Option (List ℕ))
        → now ≡ settings
        → Asks (IsTrue tells) (IsTrue alone) settings false d e a b → Asks (IsTrue tells) (IsTrue alone) now more e f b c → Asks (IsTrue tells) (IsTrue alone) settings more d f a c }
{}
