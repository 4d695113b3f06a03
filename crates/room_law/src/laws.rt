//! Laws of the definitions: the functions here do nothing.
ghost use Rattle.std.specs.Prelude.{◌≡◌, ◌≤◌, ◌++◌, ℕ, List};
ghost use Rattle.rgw_model.specs.Stamps.{counted_moment};
ghost use Rattle.realm_model.specs.Histories.{state_of, Legal};
ghost use Rattle.realm_model.specs.Settings.{SettingsView, IsSettings};
ghost use Rattle.realm_model.specs.declared.event.Event.{Event as EventOf};
ghost use Rattle.call_words.specs.Calls.{Call};
ghost use Rattle.once_law.specs.Folds.{AreOfObjects, AreReplied};
ghost use Rattle.once_law.specs.Runs.{AreAlone, AreAt};
ghost use Rattle.room_law.specs.Rooms.{frames_together};

/// Where nobody else makes events, each event brings one moment, all calls are of objects and listings, and the
/// frames that all bodies of PUTs take together, whoever asks, are free before the first call: the rows and the
/// bucket maps reply to every call, but for a body whose chunks went wrong. Of such a one the bytes before that
/// count.
pub fn bodies_that_fit_find_room()
    ensures { (settings : SettingsView) (zone pass : ℕ)
        → (before more : List EventOf) (next : ℕ) (calls : List Call) (last moment : ℕ)
        → IsSettings settings → Legal settings (before ++ more)
        → AreAlone settings zone pass before more next calls last → AreOfObjects calls
        → (state_of settings before).clock ≤ counted_moment moment → AreAt moment more
        → frames_together settings.frame settings.stripe calls ≤ (state_of settings before).free zone
        → AreReplied calls }
{}
