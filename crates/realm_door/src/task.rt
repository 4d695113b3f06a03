//! Tasks.
ghost use Rattle.std.specs.Prelude.{◌≡◌, ℕ, List, ◌↔◌, Option, Some, None, IsSome, IfSome, IfOk, Ok, Err, IfErr, OnErr, length, ◌^◌};

use crate::Door;
use std::alloc::Global;
use turn_cell::DoorFault;

/// What came of a turn.
#[derive(Clone, Copy, Debug, PartialEq, Eq)]
pub enum TaskTurn {
    /// An event was made.
    More,
    /// The task wants bytes.
    Wants,
    /// An event was made, and the task has bytes to give.
    Gives,
    /// The outcome is there.
    Done,
}

/// One request or one job, which makes its events through a door, one a turn.
pub trait Task {
    ghost use Rattle.turn_cell.specs.declared.machine.DoorFault.{DoorFault};
    ghost use Rattle.turn_cell.specs.declared.machine.DoorFault.TheVariants.{Worn};
    ghost use Rattle.realm_model.specs.Settings.{SettingsView};
    ghost use Rattle.realm_model.specs.Doors.{DoorView};
    ghost use Rattle.realm_door.specs.Turns.{FitsTold, Turned, Counts, Given, IsOneMore};
    ghost use Rattle.realm_door.specs.declared.task.TaskTurn.TheVariants.{Wants, Done};

    /// What is asked. No value of it is made.
    type Command;

    /// What the task ends with.
    type Outcome;

    ghost command: { Self → Self.Command };

    /// Whether the task stands where the events of the door's actor, in a realm of these settings, bring
    /// it. It looks at these alone of what the door tells.
    ghost fits: { Self → SettingsView → DoorView → Type 0 };

    /// What an outcome says of the events of the door's actor.
    ghost means: { Self.Command → Self.Outcome → SettingsView → DoorView → Type 0 };

    /// Whether the outcome is there.
    ghost is_ended: { Self → Type 0 };

    /// The fault with which a step stopped.
    ghost fault: { Self → Option DoorFault };

    /// The bytes that the last turn gives.
    ghost piece: { Self → List ℕ };

    /// How many bytes all turns so far have given.
    ghost given: { Self → ℕ };

    /// Whether the task takes bytes. A task that never wants any says here that it does not; left out,
    /// it says nothing.
    ghost wants: { Self → Type 0 } = { λ _. Unit {0} };

    /// Goes on by at most one event. After a fault it only answers that fault again, and once the outcome
    /// is there it makes no event.
    fn turn<D: Door>(
        &mut self,
        alloc: Global,
        door: &mut D,
        moment: u64,
    ) -> Result<TaskTurn, DoorFault>
        requires { FitsTold D.tells (D.settings door.old) (D.told door.old) (fits self.old) }
        ensures kept { FitsTold D.tells (D.settings door.old) (D.told door.new) (fits self.new) }
        ensures turned { IfOk result (λ turn.
            D.tells → Turned (D.settings door.old) turn moment (D.told door.old) (D.told door.new)) }
        ensures alone { IfOk result (λ turn. D.tells → D.alone → IsOneMore (D.told door.old) (D.told door.new)) }
        ensures counts { IfOk result (λ turn. Counts turn (D.last door.old) (D.last door.new)) }
        ensures given { IfOk result (λ turn. Given turn (given self.old) (piece self.new) (given self.new)) }
        ensures wants { IfOk result (λ turn. turn ≡ Wants → wants self.new) }
        ensures command { command self.new ≡ command self.old }

        ensures done { IfOk result (λ turn. turn ≡ Done → is_ended self.new) }
        ensures over { is_ended self.old → (result ≡ Ok Done) × (self.new ≡ self.old) × (door.new ≡ door.old) }

        ensures stopped { OnErr result ((D.tells → D.told door.new ≡ D.told door.old) × (D.last door.new ≡ D.last door.old)) }
        ensures faulted { IfErr result (λ f. fault self.new ≡ Some f) }
        ensures again { IfSome (fault self.old) (λ f. (result ≡ Err f) × (self.new ≡ self.old) × (door.new ≡ door.old)) }
        ensures worn { IfErr result (λ f. fault self.old ≡ None → D.tells → f ≡ Worn
            → length (D.found door.new) ≡ 2 ^ 62) }

        ensures settings { D.settings door.new ≡ D.settings door.old }
        ensures home { D.home door.new ≡ D.home door.old };

    /// The outcome, from the turn of the last event on.
    fn outcome(&self) -> Option<&Self::Outcome>
        ensures there { IsSome result ↔ is_ended self.now }
        ensures right { IfSome result (λ outcome. (settings : SettingsView) (d : DoorView)
            → fits self.now settings d → means (command self.now) outcome.now settings d) };
}
