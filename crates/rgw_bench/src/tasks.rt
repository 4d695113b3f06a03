//! Rounds of PUTs and GETs of 5 bytes.
use crate::bench::{Bench, CHUNK};
use crate::chance::one_of;
use crate::ops::{asker, get_of, put_of};
use crate::round::Round;
use crate::timing::clocked;
use realm_door::{Door, Staged, Stepping, Task, TaskTurn};
use realm_stage::RealmStage;
use std::alloc::Global;
use std::rt::Clock;
use task_get::{GetRequest, GetTask};
use task_put::PutTask;
use task_words::BodyEnd;

// No task here takes more turns.
const TURNS: u32 = 64;

/// A request on one of the heads.
pub trait Requested: Staged + Drop {
    /// That on the name of this number.
    fn on(bench: &Bench, alloc: Global, name: u64) -> anyhow::Result<Self>;

    /// Gives it a body of 5 bytes, if it takes one.
    fn feed_small(&mut self) -> anyhow::Result<()>;
}

impl Requested for PutTask {
    fn on(bench: &Bench, alloc: Global, name: u64) -> anyhow::Result<PutTask> {
        bench.settings.has_zone_one();
        let asker = asker(alloc)?;
        let put = put_of(alloc, name)?;
        Ok(PutTask::new(alloc, &bench.settings, 1, asker, put)?)
    }

    fn feed_small(&mut self) -> anyhow::Result<()> {
        self.feed(b"hello")?;
        self.finish(BodyEnd::Whole);
        Ok(())
    }
}

impl Requested for GetTask {
    fn on(_bench: &Bench, alloc: Global, name: u64) -> anyhow::Result<GetTask> {
        Ok(GetTask::new(GetRequest {
            zone: 1,
            asker: asker(alloc)?,
            get: get_of(alloc, name)?,
        }))
    }

    fn feed_small(&mut self) -> anyhow::Result<()> {
        Ok(())
    }
}

/// So many requests on these heads, by chance. An event is a turn; its time has that of the body's.
pub fn run_tasks<S: Requested, R: Clock>(
    rt: &R,
    alloc: Global,
    bench: &mut Bench,
    heads: u32,
    count: u32,
) -> anyhow::Result<Round> {
    let mut round = Round::new(alloc);
    for chunk in 0..count.div_ceil(CHUNK) {
        let from = u64::from(chunk.saturating_mul(CHUNK));
        let mut tasks = chunk_of::<S>(alloc, bench, u64::from(heads), from)?;
        let turns = clocked(
            rt,
            || take_all(alloc, &mut bench.stage, tasks.as_mut_slice()),
        )?;
        round.add(turns, 0)?;
    }
    round.sort()?;
    Ok(round)
}

// A chunk of requests from this number on.
fn chunk_of<S: Requested>(
    alloc: Global,
    bench: &Bench,
    heads: u64,
    from: u64,
) -> anyhow::Result<Vec<Stepping<S>>> {
    let mut tasks = Vec::new(alloc);
    for more in 0..u64::from(CHUNK) {
        let name = one_of(heads, from.saturating_add(more));
        tasks.push(Stepping::new(S::on(bench, alloc, name)?))?;
    }
    Ok(tasks)
}

// How many turns make an event.
fn take_all<S: Requested>(
    alloc: Global,
    stage: &mut RealmStage,
    tasks: &mut [Stepping<S>],
) -> anyhow::Result<u64> {
    let mut turns: u64 = 0;
    for task in tasks {
        task.stages.feed_small()?;
        turns = turns.saturating_add(turns_of(alloc, stage, task)?);
    }
    Ok(turns)
}

// Carries a task out as the next actor. How many turns make an event?
fn turns_of<T: Task>(alloc: Global, stage: &mut RealmStage, task: &mut T) -> anyhow::Result<u64> {
    stage.begin();
    let mut turns: u64 = 0;
    for _ in 0..TURNS {
        match task.turn(alloc, stage, 0)? {
            TaskTurn::More | TaskTurn::Gives => turns = turns.saturating_add(1),
            TaskTurn::Wants | TaskTurn::Done => break,
        }
    }
    Ok(turns)
}
