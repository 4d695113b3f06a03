//! Laws of the definitions: the functions here do nothing.
ghost use Rattle.std.specs.Prelude.{ℕ, Bool, List};
ghost use Rattle.realm_model.specs.Settings.{SettingsView};
ghost use Rattle.realm_model.specs.declared.event.Event.{Event as EventOf};
ghost use Rattle.swift_auth.specs.Users.{UserView};
ghost use Rattle.call_words.specs.Calls.{Call, AreSame, AreRight};
ghost use Rattle.call_words.specs.Streams.{CallsEnd, Taken, IsStreamFrom, AreLeft};

/// Replies that are right stay right in a longer history, where it says the same of the actors that made
/// their events.
pub fn right_replies_stay_right()
    ensures { (settings : SettingsView) (zone pass : ℕ) (history later : List EventOf) (next : ℕ) (calls : List Call) (last : ℕ)
        → AreSame settings pass history later next last
        → AreRight settings zone pass history next calls last
        → AreRight settings zone pass later next calls last }
{}

/// Every input is requests and an end, whichever of the clients that wait are written no 100: there is no input of
/// which no list of requests with an end is the reading.
pub fn every_input_has_a_named_end()
    ensures { (left : ℕ → Bool) (largest : ℕ) (users : List UserView) (k : ℕ) (bytes : List ℕ)
        → ¬ ((requests : List Taken) (end : CallsEnd)
        → IsStreamFrom largest users k bytes requests end → ¬ (AreLeft left largest users k requests end)) }
{}
