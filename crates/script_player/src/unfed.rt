//! Requests and jobs whose tasks neither want bytes nor bring any.
ghost use Rattle.std.specs.Prelude.{ℕ, List, []};
ghost use Rattle.realm_model.specs.Settings.{SettingsView};
ghost use Rattle.realm_model.specs.Doors.{DoorView};

use crate::play::{EndingPlay, Play};
use realm_door::{Door, EventTask, Staged, Stepping, Task};
use std::alloc::Global;
use turn_cell::DoorFault;

/// The stages of a task that neither wants bytes nor brings any, as a script asks for it.
pub(crate) trait Unfed: Staged {
    ghost use Rattle.realm_model.specs.Settings.{SettingsView};
    ghost use Rattle.realm_model.specs.Doors.{DoorView};
    ghost use Rattle.task_words.specs.declared.asker.Asker.{Asker};
    ghost use Rattle.script_words.specs.declared.line.Verb.{Verb};
    ghost use Rattle.script_player.specs.Plays.{Asked};

    /// In which zone, by whom, and what.
    ghost asked: { Self.Command → Asked };

    /// It is asked as a script asks it.
    ghost is_plain: { Self.Command → Type 0 };

    /// What an outcome, with the bytes that are shown, says of the own events of the door's actor.
    ghost says: { ℕ → Asker → Verb → Self.Outcome → List ℕ → SettingsView → DoorView → Type 0 };

    /// A law: an event comes next wherever the outcome is not there. It does nothing.
    fn goes_on()
        ensures { (t : Self) → (Self.is_over t → ⊥) → Self.is_ready t };

    /// A law: what the outcome of the task means is what the script is told, without bytes. It does nothing.
    fn tells()
        ensures { (command : Self.Command) (outcome : Self.Outcome) (settings : SettingsView) (d : DoorView)
            → is_plain command → Self.means command outcome settings d
            → says (asked command).zone (asked command).asker (asked command).verb outcome [] settings d };
}

impl<T: Unfed + Drop> Play for Stepping<T> {
    ghost use Rattle.std.specs.Prelude.{◌≡◌, None};
    ghost use Rattle.realm_door.specs.Waiting.{UnlessFaulted};

    ghost asked = { λ t. T.asked (T.command t.stages) };

    ghost stands = { λ t. T.is_plain (T.command t.stages) × (t.fault ≡ None) };

    ghost is_ended = { λ t. T.is_over t.stages × (t.fault ≡ None) };

    ghost fits = { λ t settings d. T.is_plain (T.command t.stages) × UnlessFaulted t.fault (T.fits t.stages settings d) };

    ghost brings = { λ t settings d. T.is_plain (T.command t.stages) × UnlessFaulted t.fault (T.fits t.stages settings d) };

    fn act<D: Door>(&mut self, alloc: Global, door: &mut D, moment: u64) -> Result<(), DoorFault> {
        T::goes_on();
        self.event(alloc, door, moment)
    }
}

impl<T: Unfed + Drop> EndingPlay for Stepping<T> {
    type Outcome = T::Outcome;

    ghost shown = { λ _. [] };

    ghost means = { T.says };

    fn end(&self) -> Option<&T::Outcome> {
        T::tells();
        self.outcome()
    }
}
