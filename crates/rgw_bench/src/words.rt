//! What the words of the command line ask.
use anyhow::{Context, anyhow};
use std::alloc::Global;

/// What is measured.
#[derive(Clone, Copy, Debug)]
pub enum Part {
    Classes,
    Pool,
    Realm,
    Intake,
    Listings,
    Turns,
}

// The word of each part, and the counts that are measured where none is asked for.
const PARTS: [(&str, Part, &[u32]); 6] = [
    ("classes", Part::Classes, &[100, 10_000, 100_000]),
    ("pool", Part::Pool, &[1000, 1_000_000]),
    ("realm", Part::Realm, &[1000, 1_000_000]),
    ("intake", Part::Intake, &[1024]),
    ("listings", Part::Listings, &[10_000]),
    ("turns", Part::Turns, &[4_000_000]),
];

const USAGE: &str =
    "one of these is measured: classes [ENTRIES..], pool [COUNT..], realm [HEADS..], \
                     realm large, intake [COUNT..], listings [ROWS..], turns [STEPS..]";

/// The part of this word, and its usual counts.
pub fn part_named(word: &str) -> anyhow::Result<(Part, &'static [u32])> {
    for (name, part, usual) in PARTS {
        if name == word {
            return Ok((part, usual));
        }
    }
    Err(anyhow!("{USAGE}"))
}

/// The counts that the words are; the usual ones where there is no word.
pub fn counts_of(alloc: Global, words: &[String], usual: &[u32]) -> anyhow::Result<Vec<u32>> {
    if words.is_empty() {
        return Ok(Vec::from_slice(alloc, usual)?);
    }
    let mut counts = Vec::new(alloc);
    for word in words {
        let count = word.parse::<u32>();
        counts.push(count.context("how many is a number below 2^32")?)?;
    }
    Ok(counts)
}
