//! Large objects.
use crate::bench::Bench;
use crate::sample::Sample;
use crate::tasks::Requested;
use crate::timing::{Timed, clocked};
use realm_door::{Door, Staged, Stepping, Task, TaskTurn};
use realm_stage::RealmStage;
use std::alloc::Global;
use std::rt::Clock;
use task_get::GetTask;
use task_put::PutTask;
use task_words::BodyEnd;

// The bytes of an object that is measured.
const SIZE: u64 = 67_108_864;

// How many of them.
const OBJECTS: u32 = 5;

// The bytes of a piece of a body.
const PIECE: usize = 65_536;

// No task here takes more turns.
const TURNS: u32 = 16_384;

/// An object of a few pieces.
pub fn show<R: Clock + Print>(rt: &R, alloc: Global) -> anyhow::Result<()> {
    let mut bench = Bench::new(alloc, Sample::Heads, 4096, 64)?;
    let given = put_and_get(rt, alloc, &mut bench, 200_000);
    drop(bench);
    let bytes = given?.get.count;
    println!(rt; "of 200000 bytes {bytes} are given")?;
    Ok(())
}

/// Large objects. Each is stored under one name, and its tails stay.
pub fn measure<R: Clock + Print>(rt: &R, alloc: Global) -> anyhow::Result<()> {
    println!(rt; "MiB a second, objects of 64 MiB in stripes of 4 MiB")?;
    let mut bench = Bench::new(alloc, Sample::Heads, 4096, 98_304)?;
    let fastest = fastest_of_all(rt, alloc, &mut bench);
    drop(bench);
    let fastest = fastest?;
    println!(rt; "{:>8} put", fastest.put.mebibytes_a_second())?;
    println!(rt; "{:>8} get", fastest.get.mebibytes_a_second())?;
    Ok(())
}

// The bytes that a PUT took, and those that a GET gave.
#[derive(Clone, Copy, Debug)]
struct Both {
    put: Timed,
    get: Timed,
}

fn fastest_of_all<R: Clock>(rt: &R, alloc: Global, bench: &mut Bench) -> anyhow::Result<Both> {
    let mut fastest = Both {
        put: Timed::never(),
        get: Timed::never(),
    };
    for _ in 0..OBJECTS {
        let both = put_and_get(rt, alloc, bench, SIZE)?;
        fastest.put.keep(both.put);
        if both.get.count == SIZE {
            fastest.get.keep(both.get);
        }
    }
    Ok(fastest)
}

// Stores an object of so many bytes, and reads it.
fn put_and_get<R: Clock>(
    rt: &R,
    alloc: Global,
    bench: &mut Bench,
    size: u64,
) -> anyhow::Result<Both> {
    let piece = vec![in alloc; 7_u8; PIECE]?;
    let mut task = Stepping::new(PutTask::on(bench, alloc, 0)?);
    let put = clocked(
        rt,
        || send_all(alloc, &mut bench.stage, &mut task, piece.as_slice(), size),
    );
    drop(task);
    let put = put?;
    let get = get_large(rt, alloc, bench)?;
    Ok(Both { put, get })
}

fn get_large<R: Clock>(rt: &R, alloc: Global, bench: &mut Bench) -> anyhow::Result<Timed> {
    let mut task = Stepping::new(GetTask::on(bench, alloc, 0)?);
    let get = clocked(rt, || take_all(alloc, &mut bench.stage, &mut task));
    drop(task);
    get
}

// Carries a PUT out as the next actor, whose body is so many bytes. How many are taken?
fn send_all(
    alloc: Global,
    stage: &mut RealmStage,
    task: &mut Stepping<PutTask>,
    piece: &[u8],
    size: u64,
) -> anyhow::Result<u64> {
    stage.begin();
    let mut left = size;
    for _ in 0..TURNS {
        match task.turn(alloc, stage, 0)? {
            TaskTurn::More | TaskTurn::Gives => {}
            TaskTurn::Wants => left = feed(task, piece, left)?,
            TaskTurn::Done => break,
        }
    }
    Ok(size.saturating_sub(left))
}

// Carries a GET out as the next actor. How many bytes does it give?
fn take_all(
    alloc: Global,
    stage: &mut RealmStage,
    task: &mut Stepping<GetTask>,
) -> anyhow::Result<u64> {
    stage.begin();
    let mut given: u64 = 0;
    for _ in 0..TURNS {
        match task.turn(alloc, stage, 0)? {
            TaskTurn::Gives => given = given.saturating_add(task.stages.piece().len() as u64),
            TaskTurn::More | TaskTurn::Wants => {}
            TaskTurn::Done => break,
        }
    }
    Ok(given)
}

// Sends the next piece, and says how much is left. Where none is, the body ends.
fn feed(task: &mut Stepping<PutTask>, piece: &[u8], left: u64) -> anyhow::Result<u64> {
    if left == 0 {
        task.stages.finish(BodyEnd::Whole);
        return Ok(0);
    }
    let room = usize::try_from(left).unwrap_or(usize::MAX);
    let count = piece.len().min(room);
    let taken = task.stages.feed(&piece[..count])?;
    Ok(left.saturating_sub(taken as u64))
}
