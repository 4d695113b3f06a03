//! Laws of the stages of an update: the functions here do nothing.
ghost use Rattle.std.specs.Prelude.{◌≡◌, ◌<◌, ◌≤◌, ℕ, List, [], ◌∷◌, ◌++◌, true, Some};
ghost use Rattle.rgw_types.specs.declared.pool_key.Key.{Key as KeyOf};
ghost use Rattle.object_words.specs.declared.bucket.Bucket.{Bucket as BucketOf};
ghost use Rattle.object_words.specs.declared.entry.Guard.{Guard as GuardOf};
ghost use Rattle.object_words.specs.Hashes.{shard_of};
ghost use Rattle.object_words.specs.Keys.{shard_key};
ghost use Rattle.object_words.specs.Names.{Named, at};
ghost use Rattle.realm_model.specs.Settings.{SettingsView};
ghost use Rattle.realm_model.specs.Doors.{DoorView};
ghost use Rattle.realm_model.specs.Histories.{state_of, Legal};
ghost use Rattle.realm_model.specs.Maps.{Made, heads};
ghost use Rattle.realm_model.specs.Needs.{has_read, names_shard};
ghost use Rattle.realm_model.specs.Owns.{OwnEvent};
ghost use Rattle.realm_model.specs.Phases.{RowRead};
ghost use Rattle.realm_model.specs.Suits.{Suits};
ghost use Rattle.realm_model.specs.declared.event.Event.{Event as EventOf};
ghost use Rattle.realm_model.specs.declared.event.Reply.{Reply as ReplyOf};
ghost use Rattle.realm_door.specs.Waiting.{Waited};
ghost use Rattle.index_update.specs.declared.head_change.HeadChange.{HeadChange as HeadChangeOf};
ghost use Rattle.index_update.specs.declared.stage.After.{After as AfterOf};
ghost use Rattle.index_update.specs.declared.stage.Change.{Change as ChangeOf};
ghost use Rattle.index_update.specs.declared.stage.Stage.{Stage as StageOf};
ghost use Rattle.index_update.specs.declared.stage.Stage.TheVariants.{Looking, Preparing, Announcing, Writing, Cancelling, Completing, LookingForShard};
ghost use Rattle.index_update.specs.declared.stage.Target.{Target as TargetOf};
ghost use Rattle.index_update.specs.declared.stage.Tried.{Tried as TriedOf};
ghost use Rattle.index_update.specs.declared.update.IndexUpdate.{IndexUpdate as IndexUpdateOf};
ghost use Rattle.index_update.specs.Refusals.{OnlyRowsRefuse};
ghost use Rattle.index_update.specs.Paths.{Path, path_after, path_from};
ghost use Rattle.index_update.specs.Stages.{IsReady, op_of, step_of};
ghost use Rattle.index_update.specs.Fits.{Start, Asked, Known, known_later, HasName, IsAt, FitsAt, HasShards, IsAnswer, MayCome, IsKept};
ghost use Rattle.index_update.specs.Updates.{fits};

/// An update stands where it stood when others made events.
pub fn others_keep_where_an_update_stands()
    ensures known { (r : Asked) (x : TriedOf) (k : Known) (last : ℕ) (made : Made)
        → k.last ≤ last
        → ((zone write part : ℕ) (bytes : List ℕ) → k.made zone write part ≡ Some bytes → made zone write part ≡ Some bytes)
        → (stage : StageOf) → FitsAt r x stage k → FitsAt r x stage (known_later k last made) }
    ensures told { (s : Start) (u : IndexUpdateOf) (settings : SettingsView) (d e : DoorView)
        → Waited settings d e → Legal settings e.seen → fits s u settings d → fits s u settings e }
{}

/// Whatever is answered, `Refused` tells a refusal that the row of a container makes.
pub fn only_rows_refuse_updates()
    ensures { (t : TargetOf) (x : TriedOf) (stage : StageOf) (reply : ReplyOf)
        → OnlyRowsRefuse stage → OnlyRowsRefuse (step_of t x stage reply) }
{}

/// Each event of an update comes where it may come.
pub fn updates_make_their_events_in_order()
    ensures more { (path : Path) (events : List OwnEvent) (e : OwnEvent)
        → path_from path (events ++ e ∷ []) ≡ path_after (path_from path events) e.op e.reply }
    ensures order { (t : TargetOf) (x : TriedOf) (stage : StageOf) (path : Path) (reply : ReplyOf)
        → IsReady stage → Suits (op_of t stage) reply → IsAt stage path
        → IsAt (step_of t x stage reply) (path_after path (op_of t stage) reply) }
{}

/// A read of the row brings an update to where its events bring it.
pub fn reads_of_the_row_keep_where_an_update_stands()
    ensures { (r : Asked) (x : TriedOf) (change : HeadChangeOf) (k : Known) (reply : ReplyOf)
        → FitsAt r x (Looking change) k → IsKept r x (Looking change) k reply }
{}

/// An answer to a preparation, an announcement or a cancel brings an update to where its events bring it.
pub fn tags_keep_where_an_update_stands()
    ensures prepare { (r : Asked) (x : TriedOf) (key : KeyOf) (change : HeadChangeOf) (k : Known) (reply : ReplyOf)
        → FitsAt r x (Preparing key change) k → IsKept r x (Preparing key change) k reply }
    ensures announce { (r : Asked) (x : TriedOf) (key : KeyOf) (guard : GuardOf) (change : HeadChangeOf) (k : Known) (reply : ReplyOf)
        → FitsAt r x (Announcing key guard change) k → IsKept r x (Announcing key guard change) k reply }
    ensures cancel { (r : Asked) (x : TriedOf) (key : KeyOf) (tag : ℕ) (after : AfterOf) (k : Known) (reply : ReplyOf)
        → FitsAt r x (Cancelling key tag after) k → IsKept r x (Cancelling key tag after) k reply }
{}

/// An answer to a change of the head brings an update to where its events bring it: where the head was changed, it was
/// changed as the bucket map says.
pub fn changes_keep_where_an_update_stands()
    ensures { (r : Asked) (x : TriedOf) (key : KeyOf) (guard : GuardOf) (change : HeadChangeOf) (k : Known) (reply : ReplyOf)
        → FitsAt r x (Writing key guard change) k → IsKept r x (Writing key guard change) k reply }
{}

/// An answer to a completion, or to the read of the row after one, brings an update to where its events bring it.
pub fn completions_keep_where_an_update_stands()
    ensures complete { (r : Asked) (x : TriedOf) (key : KeyOf) (made : ChangeOf) (k : Known) (reply : ReplyOf)
        → FitsAt r x (Completing key made) k → IsKept r x (Completing key made) k reply }
    ensures look { (r : Asked) (x : TriedOf) (made : ChangeOf) (k : Known) (reply : ReplyOf)
        → FitsAt r x (LookingForShard made) k → IsKept r x (LookingForShard made) k reply }
{}

/// The next operation of an update may come next.
pub fn an_update_may_go_on()
    ensures prepare { (settings : SettingsView) (r : Asked) (x : TriedOf) (key : KeyOf) (change : HeadChangeOf) (k : Known)
        → 1 ≤ r.target.zone → r.target.zone ≤ settings.zones → HasName r.target
        → FitsAt r x (Preparing key change) k → MayCome settings r (Preparing key change) k }
    ensures announce { (settings : SettingsView) (r : Asked) (x : TriedOf) (key : KeyOf) (guard : GuardOf) (change : HeadChangeOf) (k : Known)
        → 1 ≤ r.target.zone → r.target.zone ≤ settings.zones
        → FitsAt r x (Announcing key guard change) k → MayCome settings r (Announcing key guard change) k }
    ensures write { (settings : SettingsView) (r : Asked) (x : TriedOf) (key : KeyOf) (guard : GuardOf) (change : HeadChangeOf) (k : Known)
        → 1 ≤ r.target.zone → r.target.zone ≤ settings.zones
        → FitsAt r x (Writing key guard change) k → MayCome settings r (Writing key guard change) k }
    ensures cancel { (settings : SettingsView) (r : Asked) (x : TriedOf) (key : KeyOf) (tag : ℕ) (after : AfterOf) (k : Known)
        → 1 ≤ r.target.zone → r.target.zone ≤ settings.zones
        → FitsAt r x (Cancelling key tag after) k → MayCome settings r (Cancelling key tag after) k }
    ensures complete { (settings : SettingsView) (r : Asked) (x : TriedOf) (key : KeyOf) (made : ChangeOf) (k : Known)
        → 1 ≤ r.target.zone → r.target.zone ≤ settings.zones
        → FitsAt r x (Completing key made) k → MayCome settings r (Completing key made) k }
    ensures look { (settings : SettingsView) (r : Asked) (x : TriedOf) (made : ChangeOf) (k : Known)
        → 1 ≤ r.target.zone → r.target.zone ≤ settings.zones
        → FitsAt r x (LookingForShard made) k → MayCome settings r (LookingForShard made) k }
{}

/// In a legal history an answer says of the slot before it what the bucket map has, and of the row what its type says.
pub fn answers_are_of_the_map()
    ensures { (settings : SettingsView) (before : List EventOf) (e : EventOf) (clock : ℕ)
        → Legal settings (before ++ e ∷ []) → clock ≡ (state_of settings (before ++ e ∷ [])).clock
        → HasShards e.reply → IsAnswer (heads before) clock e.op e.reply }
{}

/// Where the last own read of a container's name showed a row, a change may be prepared in the shard that the row has
/// for the object's name.
pub fn a_row_names_its_shard()
    ensures { (rows : Named RowRead) (container name : List ℕ) (read : RowRead) (row : BucketOf)
        → at rows container ≡ Some read → read.row ≡ Some row → 0 < read.at
        → has_read rows 0 (names_shard (shard_key row.id row.instance (shard_of name row.shards)) name) ≡ true }
{}
