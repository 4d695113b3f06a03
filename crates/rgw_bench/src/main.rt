//! How long the parts of the gateway take. With no word it does a little of each and prints what came of it;
//! with the word of a part it measures that one, once for each count behind it.
#![tactic(auto)]

mod bench;
mod chance;
mod classes;
mod intake;
mod large;
mod listed;
mod listings;
mod objects;
mod ops;
mod pool;
mod realm;
mod round;
mod rows;
mod sample;
mod steps;
mod tally;
mod tasks;
mod timing;
mod turns;
mod words;

use std::alloc::Global;
use std::env;
use std::rt::Clock;
use std::sync::Wait;
use std::thread::Threads;
use words::{Part, counts_of, part_named};

fn main(rt: HostRuntime) -> anyhow::Result<()> {
    let words: Vec<String> = env::args(&rt)?.skip(1).collect(rt.alloc())?;
    match words.split_first() {
        None => show(&rt, rt.alloc()),
        Some((word, counts)) => measure(&rt, rt.alloc(), word.as_str(), counts),
    }
}

fn show<R: Threads + Wait + Clock + Print + Sync>(rt: &R, alloc: Global) -> anyhow::Result<()> {
    classes::show(rt, alloc)?;
    pool::show(rt, alloc)?;
    realm::show(rt, alloc)?;
    large::show(rt, alloc)?;
    intake::show(rt, alloc)?;
    listings::show(rt, alloc)?;
    turns::show(rt, alloc)
}

fn measure<R: Threads + Wait + Clock + Print + Sync>(
    rt: &R,
    alloc: Global,
    word: &str,
    counts: &[String],
) -> anyhow::Result<()> {
    let (part, usual) = part_named(word)?;
    if let Part::Realm = part
        && let Some(first) = counts.first()
        && first.as_str() == "large"
    {
        return large::measure(rt, alloc);
    }
    for count in counts_of(alloc, counts, usual)? {
        measure_one(rt, alloc, part, count)?;
    }
    Ok(())
}

fn measure_one<R: Threads + Wait + Clock + Print + Sync>(
    rt: &R,
    alloc: Global,
    part: Part,
    count: u32,
) -> anyhow::Result<()> {
    match part {
        Part::Classes => classes::measure(rt, alloc, count),
        Part::Pool => pool::measure(rt, alloc, count),
        Part::Realm => realm::measure(rt, alloc, count),
        Part::Intake => intake::measure(rt, alloc, count),
        Part::Listings => listings::measure(rt, alloc, count),
        Part::Turns => turns::measure(rt, alloc, count),
    }
}
