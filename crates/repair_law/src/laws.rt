//! Laws of the definitions: the functions here do nothing.
ghost use Rattle.std.specs.Prelude.{◌≡◌, ◌++◌, ℕ, List, true, Some};
ghost use Rattle.object_words.specs.declared.bucket.Bucket.{Bucket as BucketOf};
ghost use Rattle.object_words.specs.Names.{at};
ghost use Rattle.realm_model.specs.Containers.{row_in, is_standing};
ghost use Rattle.realm_model.specs.Maps.{heads};
ghost use Rattle.realm_model.specs.Settings.{SettingsView, IsSettings};
ghost use Rattle.realm_model.specs.Phases.{ActorId};
ghost use Rattle.realm_model.specs.Owns.{own_events, NoneBy};
ghost use Rattle.realm_model.specs.Histories.{world_of, state_of, account_of, Legal};
ghost use Rattle.realm_model.specs.declared.event.Event.{Event as EventOf};
ghost use Rattle.task_words.specs.declared.job.JobOutcome.TheVariants.{Repaired};
ghost use Rattle.task_repair.specs.declared.request.RepairRequest.{RepairRequest as RequestOf};
ghost use Rattle.task_repair.specs.Repairs.{IsRepairOutcome};
ghost use Rattle.repair_law.specs.Repaired.{HasNoTags, IsDue, ComeFrom, IsLeftAlone};
ghost use Rattle.repair_law.specs.Settled.{NonePrepares, IsSettled};

/// A repair settles its container. Before its first event the zone has a row under the container's name,
/// the clock at its events is not below the deadline of any change under way in the shards that the row
/// names, and nothing holds one of these; up to its end no other actor changes the row or makes a change in
/// these shards. Then its last pass read this row; it says that nothing is left; no change is under way in
/// the shards of the row; and until the next is prepared there, while the container stands and the zone has
/// the row, each name is listed and counted as its head. Its events come at no earlier clock than the one
/// before them.
pub fn repairs_settle_their_container()
    ensures row { (settings : SettingsView) (before during : List EventOf) (actor : ActorId)
        → (r : RequestOf) (row : BucketOf) (clock applied left : ℕ)
        → IsSettings settings → Legal settings (before ++ during)
        → NoneBy actor before → IsDue (state_of settings before) clock r.zone r.bucket row
        → ComeFrom clock (own_events (before ++ during) actor)
        → IsLeftAlone actor r.zone r.bucket row during
        → (ended : IsRepairOutcome r (Repaired applied left) (account_of settings (before ++ during) actor)
        (own_events (before ++ during) actor))
        → ended.0.row ≡ row }
    ensures left { (settings : SettingsView) (before during : List EventOf) (actor : ActorId)
        → (r : RequestOf) (row : BucketOf) (clock applied left : ℕ)
        → IsSettings settings → Legal settings (before ++ during)
        → NoneBy actor before → IsDue (state_of settings before) clock r.zone r.bucket row
        → ComeFrom clock (own_events (before ++ during) actor)
        → IsLeftAlone actor r.zone r.bucket row during
        → IsRepairOutcome r (Repaired applied left) (account_of settings (before ++ during) actor)
        (own_events (before ++ during) actor)
        → left ≡ 0 }
    ensures tags { (settings : SettingsView) (before during : List EventOf) (actor : ActorId)
        → (r : RequestOf) (row : BucketOf) (clock applied left : ℕ)
        → IsSettings settings → Legal settings (before ++ during)
        → NoneBy actor before → IsDue (state_of settings before) clock r.zone r.bucket row
        → ComeFrom clock (own_events (before ++ during) actor)
        → IsLeftAlone actor r.zone r.bucket row during
        → IsRepairOutcome r (Repaired applied left) (account_of settings (before ++ during) actor)
        (own_events (before ++ during) actor)
        → HasNoTags (state_of settings (before ++ during)) r.zone row }
    ensures shown { (settings : SettingsView) (before during later : List EventOf) (actor : ActorId)
        → (r : RequestOf) (row : BucketOf) (clock applied left : ℕ)
        → IsSettings settings → Legal settings ((before ++ during) ++ later)
        → NoneBy actor before → IsDue (state_of settings before) clock r.zone r.bucket row
        → ComeFrom clock (own_events (before ++ during) actor)
        → IsLeftAlone actor r.zone r.bucket row during
        → IsRepairOutcome r (Repaired applied left) (account_of settings (before ++ during) actor)
        (own_events (before ++ during) actor)
        → NonePrepares r.zone row later
        → at ((state_of settings ((before ++ during) ++ later)).root r.zone).buckets r.bucket ≡ Some row
        → is_standing (world_of settings ((before ++ during) ++ later)).rows
        (state_of settings ((before ++ during) ++ later)) row.id ≡ true
        → IsSettled settings ((before ++ during) ++ later) r.zone row.id row }
    ensures clocks { (settings : SettingsView) (before during : List EventOf) (actor : ActorId)
        → NoneBy actor before
        → ComeFrom (state_of settings before).clock (own_events (before ++ during) actor) }
{}

/// Where no change is under way in the shards of a row, none is until the next is prepared there. Where
/// the row is that of a container that stands up to then, none of the container's names changes, and each is
/// listed and counted as its head.
pub fn settled_containers_are_shown()
    ensures stays { (settings : SettingsView) (history later : List EventOf) (zone : ℕ) (row : BucketOf)
        → HasNoTags (state_of settings history) zone row → NonePrepares zone row later
        → HasNoTags (state_of settings (history ++ later)) zone row }
    ensures calm { (settings : SettingsView) (history later : List EventOf) (zone container : ℕ)
        → (row : BucketOf) → IsSettings settings → Legal settings (history ++ later)
        → row_in (world_of settings history).rows (state_of settings history) zone container ≡ Some row
        → is_standing (world_of settings (history ++ later)).rows (state_of settings (history ++ later)) container ≡ true
        → HasNoTags (state_of settings history) zone row → NonePrepares zone row later
        → heads (history ++ later) zone container ≡ heads history zone container }
    ensures shown { (settings : SettingsView) (history : List EventOf) (zone container : ℕ) (row : BucketOf)
        → IsSettings settings → Legal settings history
        → row_in (world_of settings history).rows (state_of settings history) zone container ≡ Some row
        → is_standing (world_of settings history).rows (state_of settings history) container ≡ true
        → HasNoTags (state_of settings history) zone row
        → IsSettled settings history zone container row }
{}
