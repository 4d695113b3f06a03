//! Each class call on a shard of many entries, and among as many containers, as an event of a realm.
use crate::bench::{Batch, Bench, CHUNK, Names};
use crate::ops::Kind;
use crate::sample::Sample;
use crate::timing::Timed;
use anyhow::anyhow;
use std::alloc::Global;
use std::rt::Clock;

// How often each batch is measured. The fastest round counts.
const ROUNDS: u32 = 40;

// The most calls of one batch.
const CALLS: u32 = 1000;

// The number of the first container that is made before anything is measured.
const FIRST: u64 = 100_000_000;

// Frames for the tails of all rounds, and for a head of each call.
const FRAMES: u32 = 65_536;

// The batches of a round. Those without a name make ready for the one behind them.
const BATCHES: [(Kind, &str); 18] = [
    (Kind::Prepare, "prepare"),
    (Kind::Complete, "complete"),
    (Kind::Prepare, ""),
    (Kind::Cancel, "cancel"),
    (Kind::Prepare, ""),
    (Kind::Suggest, "suggest"),
    (Kind::Page(1), "page of 1 entry"),
    (Kind::Page(1000), "page of 1000 entries"),
    (Kind::Stats, "stats"),
    (Kind::HeadWrite, "write of a head of 100 bytes"),
    (Kind::HeadRead, "read of that head"),
    (Kind::TailMake, "make of a tail of 4096 bytes"),
    (Kind::TailRead, "read of that tail"),
    (Kind::BucketSwap, "swap of a container's record"),
    (Kind::BucketRead, "read of that record"),
    (Kind::BucketPage(1000), "page of 1000 names of containers"),
    (Kind::AccountPage(1000), "page of 1000 names of an account"),
    (Kind::Announce, "add of a row to the data log"),
];

/// A few calls of each kind.
pub fn show<R: Clock + Print>(rt: &R, alloc: Global) -> anyhow::Result<()> {
    let mut bench = Bench::new(alloc, Sample::Entries, 4096, 64)?;
    let shown = run(rt, alloc, &mut bench, 3, 2);
    let calls = bench.stage.events();
    drop(bench);
    drop(shown?);
    println!(rt; "{calls} calls, none refused")?;
    Ok(())
}

/// Calls on a shard of so many entries, and among as many containers.
pub fn measure<R: Clock + Print>(rt: &R, alloc: Global, entries: u32) -> anyhow::Result<()> {
    let mut bench = Bench::new(alloc, Sample::Entries, 4096, FRAMES)?;
    let fastest = run(rt, alloc, &mut bench, entries, ROUNDS);
    drop(bench);
    println!(rt; "nanoseconds of a call, with {entries} entries")?;
    for (batch, (_, name)) in fastest?.iter().zip(BATCHES) {
        if !name.is_empty() {
            let nanos = batch.nanos();
            println!(rt; "{nanos:>8}  {name}")?;
        }
    }
    Ok(())
}

// A shard of so many entries, and then rounds of batches. Of each batch the fastest.
fn run<R: Clock>(
    rt: &R,
    alloc: Global,
    bench: &mut Bench,
    entries: u32,
    rounds: u32,
) -> anyhow::Result<Vec<Timed>> {
    fill(rt, alloc, bench, entries)?;
    let mut fastest = vec![in alloc; Timed::never(); BATCHES.len()]?;
    for _ in 0..rounds {
        run_batches(rt, alloc, bench, entries, fastest.as_mut_slice())?;
    }
    Ok(fastest)
}

// Each entry is prepared and completed, and beside it a container is made. The containers that are measured
// have lower names.
fn fill<R: Clock>(rt: &R, alloc: Global, bench: &mut Bench, entries: u32) -> anyhow::Result<()> {
    let kinds = [
        (Kind::Prepare, Names::Apart(1)),
        (Kind::Complete, Names::Apart(1)),
        (Kind::BucketMake, Names::From(FIRST)),
    ];
    for chunk in 0..entries.div_ceil(CHUNK) {
        let from = chunk.saturating_mul(CHUNK);
        for (kind, names) in kinds {
            let batch = Batch {
                kind,
                names,
                from,
                count: CHUNK.min(entries.saturating_sub(from)),
            };
            time_batch(rt, alloc, bench, &batch)?;
        }
    }
    Ok(())
}

// The entries of one batch stand far from each other.
fn run_batches<R: Clock>(
    rt: &R,
    alloc: Global,
    bench: &mut Bench,
    entries: u32,
    fastest: &mut [Timed],
) -> anyhow::Result<()> {
    let calls = entries.clamp(1, CALLS);
    for (at, (kind, _)) in BATCHES.into_iter().enumerate() {
        let batch = Batch {
            kind,
            names: Names::Apart(u64::from(entries / calls)),
            from: 0,
            count: calls_of(kind, calls),
        };
        let timed = time_batch(rt, alloc, bench, &batch)?;
        if let Some(fastest) = fastest.get_mut(at) {
            fastest.keep(timed);
        }
    }
    Ok(())
}

// How many calls a batch of a kind has, where most have so many.
fn calls_of(kind: Kind, calls: u32) -> u32 {
    match kind {
        Kind::Page(1000) | Kind::BucketPage(1000) | Kind::AccountPage(1000) => (calls / 50).max(1),
        _ => calls,
    }
}

fn time_batch<R: Clock>(
    rt: &R,
    alloc: Global,
    bench: &mut Bench,
    batch: &Batch,
) -> anyhow::Result<Timed> {
    let refused = bench.time_batch(rt, alloc, batch)?;
    if refused.count > 0 {
        return Err(anyhow!("a call was refused"));
    }
    Ok(refused.of(u64::from(batch.count)))
}
