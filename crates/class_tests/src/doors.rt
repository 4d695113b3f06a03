//! A door that tells nothing, and a task over it.
ghost use Rattle.std.specs.Prelude.{◌≡◌, ◌≤◌, false, [], None, IsSome};
ghost use Rattle.realm_model.specs.Settings.{settings_of, second};
ghost use Rattle.realm_model.specs.Suits.{Suits};

use object_words::{BucketNames, HeadSeen, SeenSlot, ShardKey, Why};
use realm_door::{Answered, Door, Task, TaskTurn, handed_back};
use realm_model::{Op, Reply};
use std::alloc::Global;
use std::test::Fail;
use turn_cell::{DoorFault, Stopped};

/// Tells nothing. It refuses what it can, and takes `room` events.
#[derive(Drop)]
struct SilentDoor {
    number: u64,
    room: u64,
}

fn answer_to(alloc: Global, op: &Op, number: u64) -> Reply
    ensures { Suits op.now result }
{
    match op {
        Op::BucketRead { .. } => Reply::No(Why::Absent),
        Op::AccountPage { .. } | Op::BucketPage { .. } => Reply::Names(BucketNames::new(alloc)),
        Op::Prepare { .. } | Op::Page { .. } | Op::Stats { .. } | Op::CloseShard { .. } => {
            Reply::No(Why::Closed)
        }
        Op::HeadRead { .. } => Reply::Head(
            HeadSeen {
                version: number,
                slot: SeenSlot::Nothing,
            },
            number,
        ),
        Op::HeadWrite { .. } => Reply::No(Why::Expired {
            deadline: 0,
            clock: number,
        }),
        Op::TailRead { .. } => Reply::No(Why::Gone { clock: number }),
        Op::Announce { .. } => Reply::Position(number),
        Op::BucketSwap { .. }
        | Op::ShardMake { .. }
        | Op::Complete { .. }
        | Op::Cancel { .. }
        | Op::Suggest { .. }
        | Op::Release { .. }
        | Op::Shut { .. }
        | Op::TailMake { .. } => Reply::Done,
    }
}

impl Door for SilentDoor {
    ghost tells = { ⊥ };

    ghost told = { λ d. record { pass = 0; count = 0; used = false; seen = [] } };

    ghost found = { λ d. [] };

    ghost settings = { λ d. settings_of 1 16 16 1 1 second second 1 1 };

    ghost home = { λ d. 0 };

    ghost last = { λ d. d.number };

    fn begin(&mut self) {}

    fn step(&mut self, alloc: Global, op: Op, _moment: u64) -> Result<Answered, Stopped<Op>> {
        if self.number >= self.room || self.number >= 1 << 62 {
            return Err(Stopped {
                fault: DoorFault::Worn,
                op: Some(op),
            });
        }
        self.number += 1;
        let reply = answer_to(alloc, &op, self.number);
        Ok(Answered {
            number: self.number,
            clock: self.number,
            back: handed_back(op, &reply),
            reply,
        })
    }
}

/// Asks for the counts of a shard until it is told them or that it is closed.
#[derive(Drop)]
struct CountTask {
    zone: u8,
    key: ShardKey,
    objects: Option<u64>,
    fault: Option<DoorFault>,
}

impl Task for CountTask {
    type Command = ShardKey;

    type Outcome = u64;

    ghost command = { λ t. t.key };

    ghost fits = { λ t settings d. (1 ≤ t.zone) × (t.zone ≤ settings.zones) };

    ghost means = { λ key objects settings d. Unit {0} };

    ghost is_ended = { λ t. IsSome t.objects × (t.fault ≡ None) };

    ghost fault = { λ t. t.fault };

    ghost piece = { λ t. [] };

    ghost given = { λ t. 0 };

    ghost wants = { λ t. ⊥ };

    fn turn<D: Door>(
        &mut self,
        alloc: Global,
        door: &mut D,
        moment: u64,
    ) -> Result<TaskTurn, DoorFault> {
        if let Some(fault) = self.fault {
            return Err(fault);
        }
        if self.objects.is_some() {
            return Ok(TaskTurn::Done);
        }
        let op = Op::Stats {
            zone: self.zone,
            key: self.key,
        };
        match door.step(alloc, op, moment) {
            Ok(answered) => {
                self.objects = match answered.reply {
                    Reply::Stats(stats) => Some(stats.objects),
                    _ => Some(0),
                };
                Ok(TaskTurn::More)
            }
            Err(stopped) => {
                self.fault = Some(stopped.fault);
                Err(stopped.fault)
            }
        }
    }

    fn outcome(&self) -> Option<&u64> {
        match self.fault {
            None => self.objects.as_ref(),
            Some(_) => None,
        }
    }
}

fn count_task() -> CountTask {
    CountTask {
        zone: 1,
        key: ShardKey {
            container: 1,
            instance: 1,
            shard: 0,
        },
        objects: None,
        fault: None,
    }
}

/// Whether a task that stands at its beginning makes one event, ends, and tells its outcome then.
fn ends(alloc: Global, task: &mut CountTask, door: &mut SilentDoor) -> Result<bool, DoorFault> {
    let none = task.outcome().is_none();
    let made = task.turn(alloc, door, 7)? == TaskTurn::More;
    let done = task.turn(alloc, door, 7)? == TaskTurn::Done;
    Ok(none && made && done && task.outcome().copied() == Some(0))
}

#[test]
fn a_task_ends_over_a_door_that_tells_nothing(rt: HostRuntime) -> Result<(), Fail> {
    let mut door = SilentDoor { number: 0, room: 1 };
    let mut task = count_task();
    door.begin();
    assert!(rt; ends(rt.alloc(), &mut task, &mut door)?);
    assert_eq!(rt; door.number, 1);
    Ok(())
}

#[test]
fn a_task_over_a_door_without_room_has_no_outcome(rt: HostRuntime) -> Result<(), Fail> {
    let mut door = SilentDoor { number: 1, room: 1 };
    let mut task = count_task();
    let stopped = task.turn(rt.alloc(), &mut door, 7);
    assert_eq!(rt; stopped, Err(DoorFault::Worn));
    assert!(rt; task.outcome().is_none());
    Ok(())
}
