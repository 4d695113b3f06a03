//! Calls of an ordered map and of a pool's places.
use crate::objects::Objects;
use crate::rows::SampleRows;
use crate::timing::Timed;
use std::alloc::Global;
use std::rt::Clock;

// How often each is measured. The fastest round counts.
const ROUNDS: u64 = 200;

// So many calls are a round.
const CALLS: u64 = 100;

/// A few calls of each kind.
pub fn show<R: Print>(rt: &R, alloc: Global) -> anyhow::Result<()> {
    let mut rows = SampleRows::new(alloc, 3)?;
    let mut objects = Objects::new(alloc, 3)?;
    println!(rt; "{} rows found", rows.get_some(3))?;
    objects.pick(3)?;
    println!(rt; "{} objects read", objects.read_picked()?)?;
    println!(rt; "{} objects changed", objects.change_picked()?)?;
    Ok(())
}

/// Calls where there are so many rows or objects.
pub fn measure<R: Clock + Print>(rt: &R, alloc: Global, count: u32) -> anyhow::Result<()> {
    println!(rt; "nanoseconds, with {count} rows or objects")?;
    measure_rows(rt, alloc, count)?;
    measure_objects(rt, alloc, count)
}

fn measure_rows<R: Clock + Print>(rt: &R, alloc: Global, count: u32) -> anyhow::Result<()> {
    let mut rows = SampleRows::new(alloc, u64::from(count))?;
    let mut get = Timed::never();
    let mut put = Timed::never();
    let mut remove = Timed::never();
    let mut page = Timed::never();
    for _ in 0..ROUNDS {
        get.round(rt, || Ok(rows.get_some(CALLS)))?;
        put.round(rt, || rows.put_new(CALLS))?;
        remove.round(rt, || Ok(rows.remove_new(CALLS)))?;
        page.round(rt, || rows.page())?;
    }
    println!(rt; "{:>8} get", get.nanos())?;
    println!(rt; "{:>8} put", put.nanos())?;
    println!(rt; "{:>8} remove", remove.nanos())?;
    println!(rt; "{:>8} page of 100", page.time.as_nanos())?;
    Ok(())
}

fn measure_objects<R: Clock + Print>(rt: &R, alloc: Global, count: u32) -> anyhow::Result<()> {
    let mut objects = Objects::new(alloc, count)?;
    let mut read = Timed::never();
    let mut change = Timed::never();
    for _ in 0..ROUNDS {
        objects.pick(CALLS)?;
        read.round(rt, || objects.read_picked())?;
        objects.pick(CALLS)?;
        change.round(rt, || objects.change_picked())?;
    }
    println!(rt; "{:>8} read of 5 bytes", read.nanos())?;
    println!(rt; "{:>8} find and six calls of the place", change.nanos())?;
    Ok(())
}
