//! GETs of objects.
ghost use Rattle.std.specs.Prelude.{◌≡◌, IfOk};

use crate::ends::tell_end;
use crate::play::Play;
use crate::words::{always, asker, bucket_name, object_name};
use realm_door::{Staged, Stepping, Task, TaskTurn};
use std::alloc::Global;
use std::str;
use task_get::{GetRequest, GetTask};
use task_words::GetCommand;

// No GET here takes more turns.
const TURNS: u32 = 16;

/// A GET of the whole object of this name.
pub fn get_of(alloc: Global, name: &str) -> anyhow::Result<GetRequest>
    ensures { IfOk result (λ request. request.zone ≡ 1) }
{
    let get = GetCommand {
        container: bucket_name(alloc)?,
        name: object_name(alloc, name)?,
        when: always(),
        span: None,
        body: true,
    };
    Ok(GetRequest {
        zone: 1,
        asker: asker(alloc)?,
        get,
    })
}

/// Gets the object of this name at moment 0, as the actor of this number. Prints the bytes behind the event
/// that gives them, and then how it ended.
pub fn get<R: Print>(
    rt: &R,
    alloc: Global,
    play: &mut Play,
    actor: u64,
    name: &str,
) -> anyhow::Result<()> {
    let mut task = Stepping::new(GetTask::new(get_of(alloc, name)?));
    let ended = carry_out(rt, alloc, play, &mut task, actor);
    drop(task);
    ended
}

fn carry_out<R: Print>(
    rt: &R,
    alloc: Global,
    play: &mut Play,
    task: &mut Stepping<GetTask>,
    actor: u64,
) -> anyhow::Result<()> {
    take_turns(rt, alloc, play, task, actor)?;
    tell_end(rt, actor, task.outcome())
}

// Takes the turns of a GET to its end.
fn take_turns<R: Print>(
    rt: &R,
    alloc: Global,
    play: &mut Play,
    task: &mut Stepping<GetTask>,
    actor: u64,
) -> anyhow::Result<()> {
    for _ in 0..TURNS {
        match play.turn(rt, alloc, task, actor, 0)? {
            TaskTurn::Gives => tell_piece(rt, task)?,
            TaskTurn::More | TaskTurn::Wants => {}
            TaskTurn::Done => break,
        }
    }
    Ok(())
}

fn tell_piece<R: Print>(rt: &R, task: &Stepping<GetTask>) -> anyhow::Result<()> {
    let piece = str::from_utf8(task.stages.piece())?;
    println!(rt; "gives {piece}")?;
    Ok(())
}
