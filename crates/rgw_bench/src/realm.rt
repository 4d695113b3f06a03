//! A realm's events where it has many heads, kind by kind, and the turns of small PUTs and GETs.
use crate::bench::{Bench, Names};
use crate::ops::Kind;
use crate::round::Round;
use crate::sample::Sample;
use crate::tasks::run_tasks;
use std::alloc::Global;
use std::rt::Clock;
use task_get::GetTask;
use task_put::PutTask;

// How many events are made of each kind that changes nothing.
const READS: u32 = 1_000_000;

// How many small PUTs and GETs.
const TASKS: u32 = 100_000;

// Those of a PUT in their order, then the reads.
const KINDS: [(Kind, &str); 7] = [
    (Kind::Prepare, "prepare"),
    (Kind::Announce, "announce"),
    (Kind::HeadWrite, "head write of 5 bytes"),
    (Kind::Complete, "complete"),
    (Kind::BucketRead, "bucket read"),
    (Kind::HeadRead, "head read of 5 bytes"),
    (Kind::Stats, "stats"),
];

/// A few events of each kind, and a few PUTs and GETs.
pub fn show<R: Clock + Print>(rt: &R, alloc: Global) -> anyhow::Result<()> {
    let mut bench = Bench::new(alloc, Sample::Heads, 16, 64)?;
    let shown = show_rounds(rt, alloc, &mut bench);
    drop(bench);
    shown
}

fn show_rounds<R: Clock + Print>(rt: &R, alloc: Global, bench: &mut Bench) -> anyhow::Result<()> {
    for (kind, name) in KINDS {
        let round = bench.run(rt, alloc, kind, names_of(kind, 10), 10)?;
        let (events, refused) = (round.events, round.refused);
        println!(rt; "{name}: {events} events, {refused} refused")?;
    }
    let puts = run_tasks::<PutTask, R>(rt, alloc, bench, 10, 100)?.events;
    let gets = run_tasks::<GetTask, R>(rt, alloc, bench, 10, 100)?.events;
    println!(rt; "100 puts: {puts} turns, 100 gets: {gets}")?;
    Ok(())
}

/// The events of a realm with so many heads.
pub fn measure<R: Clock + Print>(rt: &R, alloc: Global, heads: u32) -> anyhow::Result<()> {
    let heads = heads.clamp(1, 4_000_000);
    let mut bench = Bench::new(alloc, Sample::Heads, 16, heads.saturating_add(64))?;
    let measured = measure_rounds(rt, alloc, &mut bench, heads);
    drop(bench);
    measured
}

fn measure_rounds<R: Clock + Print>(
    rt: &R,
    alloc: Global,
    bench: &mut Bench,
    heads: u32,
) -> anyhow::Result<()> {
    println!(rt; "nanoseconds of an event, with {heads} heads")?;
    println!(rt; "   least   median  refused")?;
    for (kind, name) in KINDS {
        let count = if kind.reads() { READS } else { heads };
        let round = bench.run(rt, alloc, kind, names_of(kind, heads), count)?;
        tell(rt, name, &round)?;
    }
    let puts = run_tasks::<PutTask, R>(rt, alloc, bench, heads, TASKS)?;
    tell(rt, "turn of a put of 5 bytes", &puts)?;
    let gets = run_tasks::<GetTask, R>(rt, alloc, bench, heads, TASKS)?;
    tell(rt, "turn of a get of 5 bytes", &gets)
}

// Reads are of names in no order.
fn names_of(kind: Kind, heads: u32) -> Names {
    if kind.reads() {
        Names::ByChance(u64::from(heads))
    } else {
        Names::Apart(1)
    }
}

fn tell<R: Print>(rt: &R, name: &str, round: &Round) -> anyhow::Result<()> {
    let (least, median, refused) = (round.least(), round.median(), round.refused);
    println!(rt; "{least:>8} {median:>8} {refused:>8}  {name}")?;
    Ok(())
}
