//! Laws of a task's pieces: the functions here do nothing.
ghost use Rattle.std.specs.Prelude.{◌≡◌, ℕ, ◌++◌, ◌∷◌, List, [], Some, None, length, if◌then◌else◌};
ghost use Rattle.rgw_types.specs.declared.stamp.Stamp.{Stamp as StampOf};
ghost use Rattle.realm_model.specs.Settings.{SettingsView};
ghost use Rattle.realm_model.specs.Accounts.{Decided};
ghost use Rattle.realm_model.specs.Doors.{DoorView};
ghost use Rattle.realm_model.specs.Owns.{OwnEvent as OwnEventOf};
ghost use Rattle.realm_door.specs.Turns.{MakesEvent};
ghost use Rattle.task_words.specs.declared.outcome.Outcome.TheVariants.{Done};
ghost use Rattle.task_words.specs.declared.reply.MapReply.{MapReply as MapReplyOf};
ghost use Rattle.task_words.specs.declared.reply.MapReply.TheVariants.{Shown};
ghost use Rattle.task_words.specs.Outcomes.{IsShown, IsGetOutcome};
ghost use Rattle.task_words.specs.Answers.{get, answer};
ghost use Rattle.task_get.specs.declared.request.GetRequest.{GetRequest as GetRequestOf};
ghost use Rattle.task_get.specs.declared.task.GetTask.{GetTask as GetTaskOf};
ghost use Rattle.task_get.specs.Pieces.{brought};
ghost use Rattle.task_get.specs.Gets.{IsFront, shown_at};
ghost use Rattle.task_get.specs.Tasks.{account_at, events_at, request_of, bytes_of, given_of, where_shown, shown_of, Fits, means};

/// An event adds its piece to what the own events brought, and nothing where no more was given.
pub fn pieces_follow_one_another()
    ensures piece { (settings : SettingsView) (t u : GetTaskOf) (d e : DoorView) (moment : ℕ)
        → request_of u ≡ request_of t → Fits u settings e → MakesEvent settings moment d e
        → brought (request_of t).get (events_at e) ≡ brought (request_of t).get (events_at d) ++ bytes_of u }
    ensures none { (settings : SettingsView) (t u : GetTaskOf) (d e : DoorView) (moment : ℕ)
        → request_of u ≡ request_of t → Fits t settings d → Fits u settings e → MakesEvent settings moment d e
        → given_of u ≡ given_of t
        → brought (request_of t).get (events_at e) ≡ brought (request_of t).get (events_at d) }
{}

/// What was brought so far is a front of the bytes that the bucket map's reply shows at the event that
/// decides. At the end it is all of them, as many as the reply says where the bytes are wanted.
pub fn pieces_are_the_bytes_shown()
    ensures front { (settings : SettingsView) (t : GetTaskOf) (d : DoorView) (event : Decided)
        → Fits t settings d → (account_at settings d).decided ≡ Some event
        → IsFront (brought (request_of t).get (events_at d)) (shown_at (request_of t) event) }
    ensures given { (settings : SettingsView) (t : GetTaskOf) (d : DoorView)
        → Fits t settings d → given_of t ≡ length (brought (request_of t).get (events_at d)) }
    ensures whole { (settings : SettingsView) (d : DoorView) (r : GetRequestOf)
        → (kind : List ℕ) (meta : List (List ℕ × List ℕ)) (etag : List ℕ) (stamp : StampOf) (size start count : ℕ)
        → means r (Done (Shown kind meta etag stamp size start count)) settings d
        → (event : Decided) → (account_at settings d).decided ≡ Some event
        → brought r.get (events_at d) ≡ shown_at r event }
    ensures count { (settings : SettingsView) (d : DoorView) (r : GetRequestOf)
        → (kind : List ℕ) (meta : List (List ℕ × List ℕ)) (etag : List ℕ) (stamp : StampOf) (size start count : ℕ)
        → means r (Done (Shown kind meta etag stamp size start count)) settings d
        → length (brought r.get (events_at d)) ≡ (if r.get.body then count else 0) }
{}

/// From the event that decides on, the task shows the bucket map's reply there, where that shows bytes;
/// before it, none. What a GET that ends with it rests on is so from then on. Where none is shown nothing was
/// brought, and nothing by the first event.
pub fn the_reply_is_shown_from_the_head_on()
    ensures shown { (settings : SettingsView) (t : GetTaskOf) (d : DoorView) (event : Decided)
        → Fits t settings d → (account_at settings d).decided ≡ Some event
        → shown_of t ≡ where_shown (answer event.before (get (request_of t).get) (request_of t).zone event.clock).reply }
    ensures not_yet { (settings : SettingsView) (t : GetTaskOf) (d : DoorView)
        → Fits t settings d → (account_at settings d).decided ≡ None → shown_of t ≡ None }
    ensures rests { (settings : SettingsView) (t : GetTaskOf) (d : DoorView) (reply : MapReplyOf)
        → Fits t settings d → shown_of t ≡ Some reply
        → IsGetOutcome (request_of t).zone (request_of t).asker (request_of t).get (Done reply) (account_at settings d) × IsShown reply }
    ensures first { (settings : SettingsView) (t : GetTaskOf) (d : DoorView) (own : OwnEventOf)
        → Fits t settings d → events_at d ≡ own ∷ [] → brought (request_of t).get (events_at d) ≡ [] }
    ensures nothing { (settings : SettingsView) (t : GetTaskOf) (d : DoorView)
        → Fits t settings d → shown_of t ≡ None → brought (request_of t).get (events_at d) ≡ [] }
{}
