//! Laws of players: the functions here do nothing.
ghost use Rattle.std.specs.Prelude.{◌≡◌, ◌≤◌, ℕ, List, length};
ghost use Rattle.realm_model.specs.Settings.{SettingsView};
ghost use Rattle.realm_model.specs.Histories.{Legal};
ghost use Rattle.realm_model.specs.Doors.{DoorView, IsSeen, actor_at};
ghost use Rattle.realm_door.specs.Steps.{IsSame};
ghost use Rattle.task_words.specs.declared.asker.Asker.{Asker};
ghost use Rattle.task_put.specs.Bodies.{most_bytes};
ghost use Rattle.script_words.specs.Lines.{IsLine};
ghost use Rattle.script_words.specs.declared.line.Line.TheVariants.{Start, Do};
ghost use Rattle.script_words.specs.declared.line.Verb.{Verb as VerbOf};
ghost use Rattle.script_words.specs.declared.outcome.ActorOutcome.{ActorOutcome as OutcomeOf};
ghost use Rattle.script_player.specs.declared.player.Player.{Player as PlayerOf};
ghost use Rattle.script_player.specs.Meanings.{Means};
ghost use Rattle.script_player.specs.Plays.{fits};
ghost use Rattle.script_player.specs.Requests.{HasFewBytes};

/// A player stands where it stood when others made events.
pub fn others_keep_a_player()
    ensures { (settings : SettingsView) (p : PlayerOf) (d e : DoorView)
        → e.pass ≡ d.pass → e.count ≡ d.count → IsSeen d.seen e.seen → Legal settings e.seen
        → IsSame settings d.seen e.seen (actor_at d)
        → fits p settings d → fits p settings e }
{}

/// What an outcome says stays so when others make events.
pub fn others_keep_what_an_end_means()
    ensures { (settings : SettingsView) (zone : ℕ) (asker : Asker) (verb : VerbOf) (outcome : OutcomeOf) (shown : List ℕ) (d e : DoorView)
        → e.pass ≡ d.pass → e.count ≡ d.count
        → IsSame settings d.seen e.seen (actor_at d)
        → Means zone asker verb outcome shown settings d → Means zone asker verb outcome shown settings e }
{}

/// What a line of a script asks to put has no more bytes than an object may have.
pub fn lines_have_few_bytes()
    ensures start { (zones : ℕ) (bytes actor : List ℕ) (zone : ℕ) (verb : VerbOf) → length bytes ≤ most_bytes
        → IsLine zones bytes (Start actor zone verb) → HasFewBytes verb }
    ensures once { (zones : ℕ) (bytes : List ℕ) (zone : ℕ) (verb : VerbOf) → length bytes ≤ most_bytes
        → IsLine zones bytes (Do zone verb) → HasFewBytes verb }
{}
