//! Steps through a turn cell, against std's `Mutex` round the same machine.
use crate::steps::{with_cell, with_mutex};
use crate::timing::Timed;
use std::alloc::Global;
use std::rt::Clock;
use std::sync::Wait;
use std::thread::Threads;

// How many threads make steps at once.
const THREADS: [u32; 4] = [1, 2, 4, 8];

// How often each is measured. The fastest round counts.
const ROUNDS: u32 = 5;

/// A few steps, whose numbers do not depend on the schedule.
pub fn show<R: Threads + Wait + Clock + Print + Sync>(rt: &R, alloc: Global) -> anyhow::Result<()> {
    for threads in THREADS {
        let cell = with_cell(rt, alloc, threads, 1000)?.count;
        let mutex = with_mutex(rt, alloc, threads, 1000)?.count;
        println!(rt; "{threads} threads: {cell} and {mutex} steps")?;
    }
    Ok(())
}

/// Steps a second, with so many steps in all.
pub fn measure<R: Threads + Wait + Clock + Print + Sync>(
    rt: &R,
    alloc: Global,
    steps: u32,
) -> anyhow::Result<()> {
    println!(rt; "threads  cell steps/s  mutex steps/s  cell to mutex")?;
    for threads in THREADS {
        let each = steps / threads;
        let mut cell = Timed::never();
        let mut mutex = Timed::never();
        for _ in 0..ROUNDS {
            cell.keep(with_cell(rt, alloc, threads, each)?);
            mutex.keep(with_mutex(rt, alloc, threads, each)?);
        }
        let (cell, mutex) = (cell.a_second(), mutex.a_second());
        let percent = percent_of(cell, mutex);
        println!(rt; "{threads:>7}  {cell:>12}  {mutex:>13}  {percent:>12}%")?;
    }
    Ok(())
}

fn percent_of(part: u64, whole: u64) -> u128 {
    u128::from(part) * 100 / u128::from(whole.max(1))
}
