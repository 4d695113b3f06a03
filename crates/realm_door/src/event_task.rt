//! Tasks whose events are made one by one.
ghost use Rattle.std.specs.Prelude.{◌≡◌, ◌+◌, ◌<◌, ◌≤◌, ◌^◌, length, Some, None, IfErr, OnOk, OnErr};
ghost use Rattle.turn_cell.specs.declared.machine.DoorFault.TheVariants.{Worn};

use crate::{Door, Task};
use std::alloc::Global;
use turn_cell::DoorFault;

/// A task of which a caller makes the next event, where one comes, and nothing else.
pub trait EventTask: Task {
    ghost use Rattle.realm_door.specs.Turns.{FitsTold, MakesEvent, IsOneMore};

    /// Whether an event comes next.
    ghost is_ready: { Self → Type 0 };

    /// How an event brings the task on, also where the door tells nothing. Left out, it says nothing.
    ghost steps: { Self → Self → Type 0 } = { λ _ _. Unit {0} };

    /// Makes the event that comes next. At `Err` there is none.
    fn event<D: Door>(&mut self, alloc: Global, door: &mut D, moment: u64) -> Result<(), DoorFault>
        requires ready { is_ready self.old }
        requires sound { Self.fault self.old ≡ None }
        requires fits { FitsTold D.tells (D.settings door.old) (D.told door.old) (Self.fits self.old) }
        ensures kept { FitsTold D.tells (D.settings door.old) (D.told door.new) (Self.fits self.new) }
        ensures made { OnOk result (D.tells → MakesEvent (D.settings door.old) moment (D.told door.old) (D.told door.new)) }
        ensures alone { OnOk result (D.tells → D.alone → IsOneMore (D.told door.old) (D.told door.new)) }
        ensures counts { OnOk result ((D.last door.old < D.last door.new) × (D.last door.new ≤ 2 ^ 62)) }
        ensures steps { OnOk result (steps self.old self.new) }
        ensures given { OnOk result (Self.given self.new ≡ Self.given self.old + length (Self.piece self.new)) }
        ensures command { Self.command self.new ≡ Self.command self.old }
        ensures sound { OnOk result (Self.fault self.new ≡ None) }

        ensures stopped { OnErr result ((D.tells → D.told door.new ≡ D.told door.old) × (D.last door.new ≡ D.last door.old)) }
        ensures faulted { IfErr result (λ f. Self.fault self.new ≡ Some f) }
        ensures worn { IfErr result (λ f. D.tells → f ≡ Worn → length (D.found door.new) ≡ 2 ^ 62) }

        ensures settings { D.settings door.new ≡ D.settings door.old }
        ensures home { D.home door.new ≡ D.home door.old };
}
