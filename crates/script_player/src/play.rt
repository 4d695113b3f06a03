//! What an actor does, event by event.
ghost use Rattle.std.specs.Prelude.{◌≡◌, ◌↔◌, ◌^◌, ℕ, List, length, IsSome, IfSome, IfErr, OnOk, OnErr};
ghost use Rattle.turn_cell.specs.declared.machine.DoorFault.TheVariants.{Worn};

use realm_door::Door;
use std::alloc::Global;
use turn_cell::DoorFault;

/// A request or a job that goes on event by event.
pub(crate) trait Play {
    ghost use Rattle.realm_model.specs.Settings.{SettingsView};
    ghost use Rattle.realm_model.specs.Doors.{DoorView};
    ghost use Rattle.realm_model.specs.Histories.{Legal};
    ghost use Rattle.script_player.specs.Going.{Steps};
    ghost use Rattle.script_player.specs.Plays.{Asked};

    /// In which zone, by whom, and what.
    ghost asked: { Self → Asked };

    /// It is what is asked, and no step stopped with a fault.
    ghost stands: { Self → Type 0 };

    /// The outcome is there.
    ghost is_ended: { Self → Type 0 };

    /// It stands where the own events of the door's actor bring it.
    ghost fits: { Self → SettingsView → DoorView → Type 0 };

    /// It stands there once it keeps what the last event brought.
    ghost brings: { Self → SettingsView → DoorView → Type 0 };

    /// Makes the event that comes next; none where the outcome is there without one. At `Err` there is none.
    fn act<D: Door>(&mut self, alloc: Global, door: &mut D, moment: u64) -> Result<(), DoorFault>
        requires stands { stands self.old }
        requires going { is_ended self.old → ⊥ }
        requires legal { D.tells → Legal (D.settings door.old) (D.told door.old).seen }
        requires fits { D.tells → fits self.old (D.settings door.old) (D.told door.old) }
        ensures stands { OnOk result (stands self.new) }
        ensures brings { OnOk result (D.tells → brings self.new (D.settings door.old) (D.told door.new)) }
        ensures steps { OnOk result (D.tells → Steps D.alone (D.settings door.old) moment (is_ended self.new) (D.told door.old) (D.told door.new)) }
        ensures stays { OnErr result (D.tells → D.told door.new ≡ D.told door.old) }
        ensures worn { IfErr result (λ f. D.tells → f ≡ Worn → length (D.found door.new) ≡ 2 ^ 62) }
        ensures asked { asked self.new ≡ asked self.old }
        ensures settings { D.settings door.new ≡ D.settings door.old }
        ensures home { D.home door.new ≡ D.home door.old };
}

/// One that keeps its outcome.
pub(crate) trait EndingPlay: Play {
    ghost use Rattle.realm_model.specs.Settings.{SettingsView};
    ghost use Rattle.realm_model.specs.Doors.{DoorView};
    ghost use Rattle.task_words.specs.declared.asker.Asker.{Asker};
    ghost use Rattle.script_words.specs.declared.line.Verb.{Verb};

    /// What it ends with.
    type Outcome;

    /// The bytes shown so far.
    ghost shown: { Self → List ℕ };

    /// What an outcome, with the bytes that are shown, says of the own events of the door's actor.
    ghost means: { ℕ → Asker → Verb → Self.Outcome → List ℕ → SettingsView → DoorView → Type 0 };

    /// The outcome, from its event on.
    fn end(&self) -> Option<&Self::Outcome>
        ensures there { IsSome result ↔ Self.is_ended self.now }
        ensures right { IfSome result (λ outcome. (settings : SettingsView) (d : DoorView) → Self.fits self.now settings d
            → means (Self.asked self.now).zone (Self.asked self.now).asker (Self.asked self.now).verb outcome.now (shown self.now) settings d) };
}
