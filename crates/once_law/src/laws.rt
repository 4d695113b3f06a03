//! Laws of the definitions: the functions here do nothing.
ghost use Rattle.std.specs.Prelude.{◌≡◌, ◌≤◌, ◌^◌, ◌++◌, ℕ, List, length};
ghost use Rattle.rgw_model.specs.Stamps.{counted_moment};
ghost use Rattle.realm_model.specs.Histories.{state_of, Legal};
ghost use Rattle.realm_model.specs.Settings.{SettingsView, IsSettings};
ghost use Rattle.realm_model.specs.declared.event.Event.{Event as EventOf};
ghost use Rattle.swift_auth.specs.Users.{UserView};
ghost use Rattle.call_words.specs.Calls.{Call};
ghost use Rattle.once_law.specs.Missing.{MissesNone};
ghost use Rattle.call_words.specs.Requests.{requests_of};
ghost use Rattle.call_words.specs.Streams.{CallsEnd};
ghost use Rattle.once_law.specs.Maps.{Rows, Slots};
ghost use Rattle.once_law.specs.Folds.{Fixed, AreOfObjects, AreFolded, AreRepliedOrFull, AreReplied, AskTheSame, SayTheSame};
ghost use Rattle.once_law.specs.Readings.{AreLeftAsRowsSay, AreReadAlone, IsCutGranted};
ghost use Rattle.once_law.specs.Runs.{AreAlone, AreClocks, AreAt, AreOfMaps};

/// Where nobody else makes events, and all calls are of objects and listings, the replies to them are those of
/// the rows and the bucket maps, each for its own asker, folded over the calls from what stood before the first
/// of them; and the last of them leaves the maps that the history has behind their events. Where each event
/// brings one moment, that is the clock of each reply.
pub fn calls_fold_over_the_maps()
    ensures maps { (settings : SettingsView) (zone pass : ℕ)
        → (before more : List EventOf) (next : ℕ) (calls : List Call) (last : ℕ) (clocks : ℕ → ℕ)
        → Legal settings (before ++ more) → IsSettings settings → length (before ++ more) ≤ 2 ^ 62
        → AreAlone settings zone pass before more next calls last → AreOfObjects calls
        → AreClocks settings pass (before ++ more) next clocks
        → AreOfMaps settings zone before more calls clocks }
    ensures moment { (settings : SettingsView) (zone pass : ℕ)
        → (before more : List EventOf) (next : ℕ) (calls : List Call) (last moment : ℕ)
        → Legal settings (before ++ more) → IsSettings settings → length (before ++ more) ≤ 2 ^ 62
        → AreAlone settings zone pass before more next calls last → AreOfObjects calls
        → (state_of settings before).clock ≤ counted_moment moment → AreAt moment more
        → AreOfMaps settings zone before more calls (λ count. counted_moment moment) }
{}

/// No read of a stripe is answered that it is gone, since no kind of event takes one away.
pub fn no_stripe_is_missed()
    ensures { MissesNone }
{}

/// Where nobody else makes events, each event brings one moment, and all calls are of objects and listings,
/// each of them is replied by the rows and the bucket maps, but for want of room: no shard is held, none that a
/// row names fails to serve, and no tag comes to its end.
pub fn only_room_is_wanting()
    ensures { (settings : SettingsView) (zone pass : ℕ)
        → (before more : List EventOf) (next : ℕ) (calls : List Call) (last moment : ℕ)
        → IsSettings settings → Legal settings (before ++ more)
        → AreAlone settings zone pass before more next calls last → AreOfObjects calls
        → (state_of settings before).clock ≤ counted_moment moment → AreAt moment more
        → AreRepliedOrFull calls }
{}

/// Where nobody else makes events, each event brings one moment, and all calls are of objects and listings, it is
/// no choice for which of the clients that wait no 100 is written: for those whose PUT the row of its container
/// refuses. Nor is it one for a PUT that was cut off behind a 100, which the row grants. So the bytes of a
/// connection are the same requests, with the same fates and the same end, over the same rows and users.
pub fn which_bodies_are_left_is_no_choice()
    ensures rows { (settings : SettingsView) (zone : ℕ) (users : List UserView) (rows : Rows) (k : ℕ) (bytes : List ℕ)
        → (calls : List Call) (end : CallsEnd)
        → IsSettings settings → AreReadAlone settings zone users rows k bytes calls end → AreOfObjects calls
        → AreLeftAsRowsSay rows calls }
    ensures cut { (settings : SettingsView) (zone : ℕ) (users : List UserView) (rows : Rows) (k : ℕ) (bytes : List ℕ)
        → (calls : List Call) (end : CallsEnd)
        → IsSettings settings → AreReadAlone settings zone users rows k bytes calls end → AreOfObjects calls
        → IsCutGranted rows settings.largest users k bytes calls end }
    ensures reading { (settings : SettingsView) (zone : ℕ) (users : List UserView) (rows : Rows) (k : ℕ) (bytes : List ℕ)
        → (calls others : List Call) (end other : CallsEnd)
        → IsSettings settings
        → AreReadAlone settings zone users rows k bytes calls end → AreOfObjects calls
        → AreReadAlone settings zone users rows k bytes others other → AreOfObjects others
        → (requests_of calls ≡ requests_of others) × (end ≡ other) × AskTheSame calls others }
{}

/// Calls that ask the same are told the same: where the maps replied to each of them, and at one clock, the
/// texts of two folds from the same rows and slots are the same. So they follow from the requests alone.
pub fn folds_tell_the_same()
    ensures { (x : Fixed) (slots : Slots) (calls others : List Call)
        → ((one another : ℕ) → x.clocks one ≡ x.clocks another) → AskTheSame calls others
        → AreFolded x slots calls → AreFolded x slots others → AreReplied calls → AreReplied others
        → SayTheSame calls others }
{}
