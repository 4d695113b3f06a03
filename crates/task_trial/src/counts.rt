//! The counts of the container.
ghost use Rattle.std.specs.Prelude.{◌≡◌, IfOk};

use crate::play::Play;
use crate::words::{asker, bucket_name};
use realm_door::{Stepping, Task, TaskTurn};
use std::alloc::Global;
use task_container::{
    ContainerCommand, ContainerOutcome, ContainerReply, ContainerRequest, ContainerTask,
};

// No count here takes more turns.
const TURNS: u32 = 16;

/// To count the objects of the container.
pub fn count_of(alloc: Global) -> anyhow::Result<ContainerRequest>
    ensures { IfOk result (λ request. request.zone ≡ 1) }
{
    Ok(ContainerRequest {
        zone: 1,
        asker: asker(alloc)?,
        command: ContainerCommand::Head {
            name: bucket_name(alloc)?,
        },
    })
}

/// Counts at moment 0, as the actor of this number, and prints what was counted.
pub fn count<R: Print>(rt: &R, alloc: Global, play: &mut Play, actor: u64) -> anyhow::Result<()> {
    let settings = play.settings();
    let mut task = Stepping::new(ContainerTask::new(&settings, count_of(alloc)?));
    let ended = carry_out(rt, alloc, play, &mut task, actor);
    drop(task);
    ended
}

fn carry_out<R: Print>(
    rt: &R,
    alloc: Global,
    play: &mut Play,
    task: &mut Stepping<ContainerTask>,
    actor: u64,
) -> anyhow::Result<()> {
    take_turns(rt, alloc, play, task, actor)?;
    tell_end(rt, actor, task.outcome())
}

/// Prints how the count of this actor ended.
fn tell_end<R: Print>(
    rt: &R,
    actor: u64,
    outcome: Option<&ContainerOutcome>,
) -> anyhow::Result<()> {
    match outcome {
        Some(ContainerOutcome::Done(ContainerReply::Counted { objects, bytes, .. })) => {
            println!(rt; "actor {actor}: 200 objects={objects} bytes={bytes}")?;
        }
        Some(ContainerOutcome::Done(_)) => println!(rt; "actor {actor}: refused")?,
        Some(_) => println!(rt; "actor {actor}: another end")?,
        None => println!(rt; "actor {actor}: no end")?,
    }
    Ok(())
}

// Takes the turns of a count to its end.
fn take_turns<R: Print>(
    rt: &R,
    alloc: Global,
    play: &mut Play,
    task: &mut Stepping<ContainerTask>,
    actor: u64,
) -> anyhow::Result<()> {
    for _ in 0..TURNS {
        if play.turn(rt, alloc, task, actor, 0)? == TaskTurn::Done {
            break;
        }
    }
    Ok(())
}
