//! Laws of the stages of a PUT: the functions here do nothing.
ghost use Rattle.std.specs.Prelude.{◌≡◌, ◌≤◌, ◌⊎◌, ℕ, true, List, [], ◌∷◌, ◌++◌, Some};
ghost use Rattle.realm_model.specs.Settings.{SettingsView};
ghost use Rattle.realm_model.specs.Maps.{Made};
ghost use Rattle.realm_model.specs.Owns.{OwnEvent};
ghost use Rattle.realm_model.specs.Suits.{Suits};
ghost use Rattle.realm_model.specs.declared.event.Reply.{Reply as ReplyOf};
ghost use Rattle.rgw_types.specs.declared.pool_key.Key.{Key};
ghost use Rattle.task_words.specs.declared.command.BodyEnd.{BodyEnd as BodyEndOf};
ghost use Rattle.index_update.specs.Fits.{Known, known_later};
ghost use Rattle.index_update.specs.Paths.{ready, path_from as update_from, IsOrdered as IsUpdateOrdered, IsFinished as IsUpdateFinished};
ghost use Rattle.task_put.specs.declared.stage.Draft.{Draft as DraftOf};
ghost use Rattle.task_put.specs.declared.stage.PutRequest.{PutRequest as PutRequestOf};
ghost use Rattle.task_put.specs.declared.stage.Stage.{Stage as StageOf};
ghost use Rattle.task_put.specs.declared.stage.Stage.TheVariants.{Looking, Feeding};
ghost use Rattle.task_put.specs.Bodies.{has_tail};
ghost use Rattle.task_put.specs.Orders.{Path, feeding, path_of, path_after, IsOrdered, IsFinished};
ghost use Rattle.task_put.specs.Stages.{IsBody, op_of, step_of, settled};
ghost use Rattle.task_put.specs.Taking.{IsTaking, fed_request, fed_stage, ended_request, ended_stage};
ghost use Rattle.task_put.specs.Fits.{IsAt, FitsAt, Fits, MayCome, IsKept};

/// A PUT stands where it stood when others made events.
pub fn others_keep_where_a_put_stands()
    ensures { (settings : SettingsView) (r : PutRequestOf) (k : Known) (last : ℕ) (made : Made)
        → k.last ≤ last
        → ((zone write part : ℕ) (bytes : List ℕ) → k.made zone write part ≡ Some bytes → made zone write part ≡ Some bytes)
        → (stage : StageOf) → FitsAt settings r stage k → FitsAt settings r stage (known_later k last made) }
{}

/// Each event of a PUT comes where it may come: first those of its body, and then those of an update.
pub fn puts_make_their_events_in_order()
    ensures more { (events : List OwnEvent) (e : OwnEvent) → path_of (events ++ e ∷ []) ≡ path_after (path_of events) e.op e.reply }
    ensures order { (stage : StageOf) (path : Path) (number : ℕ) (reply : ReplyOf)
        → IsBody stage → Suits (op_of stage) reply → IsAt stage path
        → IsAt (step_of stage number reply) (path_after path (op_of stage) reply) }
    ensures update { (before mine : List OwnEvent)
        → path_of before ≡ feeding → IsUpdateOrdered (update_from ready mine) → IsOrdered (path_of (before ++ mine)) }
    ensures finish { (before mine : List OwnEvent)
        → path_of before ≡ feeding → IsUpdateFinished (update_from ready mine) → IsFinished (path_of (before ++ mine)) }
{}

/// A read of the row brings a PUT to where its events bring it.
pub fn reads_of_the_row_keep_where_a_put_stands()
    ensures { (settings : SettingsView) (r : PutRequestOf) (draft : DraftOf) (k : Known) (reply : ReplyOf)
        → FitsAt settings r (Looking draft) k → IsKept settings r (Looking draft) k reply }
{}

/// A tail that is made brings a PUT to where its events bring it, and so does the end of its body.
pub fn tails_keep_where_a_put_stands()
    ensures may { (settings : SettingsView) (r : PutRequestOf) (write : ℕ) (key : Key) (draft : DraftOf) (k : Known)
        → FitsAt settings r (Feeding write key draft) k → has_tail draft.body ≡ true
        → 1 ≤ r.zone → r.zone ≤ settings.zones → MayCome settings (Feeding write key draft) k }
    ensures tail { (settings : SettingsView) (r : PutRequestOf) (write : ℕ) (key : Key) (draft : DraftOf) (k : Known)
        → FitsAt settings r (Feeding write key draft) k → has_tail draft.body ≡ true
        → (reply : ReplyOf) → IsKept settings r (Feeding write key draft) k reply }
    ensures end { (settings : SettingsView) (r : PutRequestOf) (stage : StageOf) (k : Known)
        → Fits settings r stage k → Fits settings r (settled stage) k }
{}

/// A PUT that takes more bytes stands where its events brought it, and so does one whose body ends.
pub fn bodies_keep_where_a_put_stands()
    ensures fed { (settings : SettingsView) (r : PutRequestOf) (more : List ℕ) (stage : StageOf) (k : Known)
        → (more ≡ []) ⊎ IsTaking stage → FitsAt settings r stage k
        → FitsAt settings (fed_request r more) (fed_stage stage more) k }
    ensures ended { (settings : SettingsView) (r : PutRequestOf) (end : BodyEndOf) (k : Known) (stage : StageOf)
        → FitsAt settings r stage k → FitsAt settings (ended_request r end) (ended_stage stage end) k }
{}
