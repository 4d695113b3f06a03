//! The events of a task, made at the moments that a clock tells.
ghost use Rattle.std.specs.Prelude.{◌≡◌, ◌⊎◌, ◌<◌, ◌≤◌, ◌^◌, true, false, None, length, OnOk, OnErr, IfErr};
ghost use Rattle.turn_cell.specs.declared.machine.DoorFault.TheVariants.{Worn};
ghost use Rattle.door_moments.specs.Acts.{Asks, IsUpTo, IsUnderWay, MakesSome};

use gw_io::Clock;
use realm_door::{Door, EventTask, Next, Staged, Stepping, Task};
use std::alloc::Global;
use turn_cell::DoorFault;

/// Makes the event of a task that comes next, at the moment now. The clock is asked once.
pub fn act<T: EventTask, D: Door, C: Clock>(
    alloc: Global,
    task: &mut T,
    door: &mut D,
    clock: &mut C,
) -> Result<(), DoorFault>
    requires ready { T.is_ready task.old }
    requires sound { T.fault task.old ≡ None }
    requires up { IsUpTo T.fits D.tells (D.settings door.old) task.old (D.told door.old) }
    ensures up { IsUpTo T.fits D.tells (D.settings door.old) task.new (D.told door.new) }
    ensures sound { OnOk result (T.fault task.new ≡ None) }
    ensures asks { OnOk result (Asks D.tells D.alone (D.settings door.old) false
        (D.told door.old) (D.told door.new) (C.told clock.old) (C.told clock.new)) }
    ensures unasked { OnErr result (Asks D.tells D.alone (D.settings door.old) true
        (D.told door.old) (D.told door.new) (C.told clock.old) (C.told clock.new)) }
    ensures made { OnOk result (D.tells → MakesSome (D.settings door.old) (D.told door.old) (D.told door.new)) }
    ensures stays { OnErr result (D.tells → D.told door.new ≡ D.told door.old) }
    ensures worn { IfErr result (λ f. D.tells → f ≡ Worn → length (D.found door.new) ≡ 2 ^ 62) }
    ensures steps { OnOk result (T.steps task.old task.new) }
    ensures counts { OnOk result ((D.last door.old < D.last door.new) × (D.last door.new ≤ 2 ^ 62)) }
    ensures command { T.command task.new ≡ T.command task.old }
    ensures settings { D.settings door.new ≡ D.settings door.old }
    ensures home { D.home door.new ≡ D.home door.old }
    ensures plan { C.plan clock.new ≡ C.plan clock.old }
{
    let moment = clock.now();
    task.event(alloc, door, moment)
}

/// Makes the events of a task up to where none comes next: its outcome is there, or it wants bytes. The clock is asked
/// once for each event, and at no other time. At `Err` the events up to the one that failed to come stand.
pub fn act_to_end<T: Staged + Drop, D: Door, C: Clock>(
    alloc: Global,
    task: &mut Stepping<T>,
    door: &mut D,
    clock: &mut C,
) -> Result<(), DoorFault>
    requires sound { task.old.fault ≡ None }
    requires up { IsUpTo T.fits D.tells (D.settings door.old) task.old.stages (D.told door.old) }
    ensures up { OnOk result (IsUpTo T.fits D.tells (D.settings door.old) task.new.stages (D.told door.new)) }
    ensures left { OnErr result (D.tells
        → IsUnderWay T.command T.fits (T.command task.old.stages) (D.settings door.old) (D.told door.new)) }
    ensures sound { OnOk result (task.new.fault ≡ None) }
    ensures over { OnOk result (T.is_over task.new.stages ⊎ T.wants task.new.stages) }
    ensures asks { OnOk result (Asks D.tells D.alone (D.settings door.old) false
        (D.told door.old) (D.told door.new) (C.told clock.old) (C.told clock.new)) }
    ensures unasked { OnErr result (Asks D.tells D.alone (D.settings door.old) true
        (D.told door.old) (D.told door.new) (C.told clock.old) (C.told clock.new)) }
    ensures worn { IfErr result (λ f. D.tells → f ≡ Worn → length (D.found door.new) ≡ 2 ^ 62) }
    ensures command { T.command task.new.stages ≡ T.command task.old.stages }
    ensures settings { D.settings door.new ≡ D.settings door.old }
    ensures home { D.home door.new ≡ D.home door.old }
    ensures plan { C.plan clock.new ≡ C.plan clock.old }
{
    'events: loop {
        match task.stages.settle() {
            Next::Event => act(alloc, task, door, clock)?,
            Next::Wants | Next::Done => return Ok(()),
        }
    }
}
