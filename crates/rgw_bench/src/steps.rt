//! One round: some threads make steps, timed from the first one's start to the last one's end.
ghost use Rattle.std.specs.Prelude.{◌≡◌, ◌+◌, ◌<◌, ◌≤◌, All, vec_len, IfOk};

use crate::tally::Tally;
use crate::timing::Timed;
use std::alloc::{AllocError, Global};
use std::rt::Clock;
use std::sync::{Mutex, Wait};
use std::thread;
use std::thread::Threads;
use std::time::Instant;
use turn_cell::{Machine, Pass, Turn};

/// Each thread makes so many steps through a pass of one turn cell.
pub fn with_cell<R: Threads + Wait + Clock + Sync>(
    rt: &R,
    alloc: Global,
    threads: u32,
    each: u32,
) -> anyhow::Result<Timed> {
    let tally = Tally::with_room(alloc, threads as usize * each as usize)?;
    let (cell, first) = Turn::new(alloc, tally)?;
    let passes = split_in(alloc, &cell, first, threads)?;
    let start = Instant::now(rt)?;
    let made = thread::map_vec(rt, passes, &|pass| cell_steps(rt, alloc, &cell, pass, each))?;
    Ok(Timed {
        count: sum(&made),
        time: start.elapsed(rt)?,
    })
}

/// The same with std's lock round the machine.
pub fn with_mutex<R: Threads + Wait + Clock + Sync>(
    rt: &R,
    alloc: Global,
    threads: u32,
    each: u32,
) -> anyhow::Result<Timed> {
    let lock = Mutex::new(Tally::with_room(alloc, threads as usize * each as usize)?);
    let actors = (1..=u64::from(threads)).collect(alloc)?;
    let start = Instant::now(rt)?;
    let made = thread::map_vec(
        rt,
        actors,
        &|actor| mutex_steps(rt, alloc, &lock, actor, each),
    )?;
    Ok(Timed {
        count: sum(&made),
        time: start.elapsed(rt)?,
    })
}

// The steps of one thread. Fewer than `each` are made only where memory runs out.
fn cell_steps<R: Wait>(
    rt: &R,
    alloc: Global,
    cell: &Turn<Tally>,
    mut pass: Pass<Tally>,
    each: u32,
) -> u32
    requires { pass.cell ≡ cell.now }
{
    let mut actor = pass.number();
    for made in 0..each {
        if cell.step(rt, alloc, &mut pass, &mut actor, (), 0).is_err() {
            return made;
        }
    }
    each
}

fn mutex_steps<R: Wait>(
    rt: &R,
    alloc: Global,
    lock: &Mutex<Tally>,
    mut actor: u64,
    each: u32,
) -> u32 {
    for made in 0..each {
        if lock.lock(rt).apply(alloc, &mut actor, (), 0).is_err() {
            return made;
        }
    }
    each
}

// The first pass and enough passes split from it.
fn split_in(
    alloc: Global,
    cell: &Turn<Tally>,
    mut first: Pass<Tally>,
    threads: u32,
) -> Result<Vec<Pass<Tally>>, AllocError>
    requires { first.cell ≡ cell.now }
    ensures { IfOk result (λ passes. All (λ pass. pass.cell ≡ cell.now) passes.items) }
{
    let mut passes = Vec::new(alloc);
    for _ in 1..threads {
        if first.room() > 1 {
            passes.push(cell.split(&mut first, 1))?;
        }
    }
    passes.push(first)?;
    Ok(passes)
}

fn sum(made: &[u32]) -> u64 {
    made.iter()
        .fold(0, |all: u64, one| all.saturating_add(u64::from(*one)))
}
