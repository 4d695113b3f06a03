//! A realm whose events are measured.
use crate::chance::one_of;
use crate::ops::{Kind, SHARD, STRIPE, Subject, first_record};
use crate::round::Round;
use crate::sample::Sample;
use crate::timing::{Timed, clocked};
use anyhow::Context;
use realm_door::Door;
use realm_model::{Op, Reply, Settings};
use realm_stage::RealmStage;
use std::alloc::Global;
use std::rt::Clock;

/// How many operations of a round are made at once, before the clock starts.
pub const CHUNK: u32 = 100;

/// Which names the events of a kind are on, one after another.
#[derive(Clone, Copy, Debug)]
pub enum Names {
    /// Each so many further on than the one before.
    Apart(u64),
    /// One after another, from this one on.
    From(u64),
    /// By chance, of so many.
    ByChance(u64),
}

impl Names {
    fn name(self, index: u64) -> u64 {
        match self {
            Names::Apart(step) => index.wrapping_mul(step),
            Names::From(first) => index.wrapping_add(first),
            Names::ByChance(count) => one_of(count, index),
        }
    }
}

/// Events of one kind, from this one on.
#[derive(Clone, Copy, Debug)]
pub struct Batch {
    pub kind: Kind,
    pub names: Names,
    pub from: u32,
    pub count: u32,
}

/// What later events need to know of earlier ones.
#[derive(Clone, Copy, Debug)]
struct Marks {
    // The numbers of the first of the last preparations, tails and records.
    prepared: u64,
    tails: u64,
    records: u64,
    // How often the entry of the first name was changed.
    revision: u64,
}

impl Marks {
    // What the event of this number is about, which is so far from the first of its kind.
    fn subject(&self, sample: Sample, batch: &Batch, number: u64, index: u64) -> Subject {
        let version = match self.records {
            0 => 0,
            first => first.wrapping_add(index),
        };
        let write = match batch.kind {
            Kind::TailMake => number,
            _ => self.tails.wrapping_add(index),
        };
        Subject {
            sample,
            name: batch.names.name(index),
            number,
            tag: self.prepared.wrapping_add(index),
            revision: self.revision,
            version,
            write,
        }
    }

    // A batch begins whose kind has its first event at this number.
    fn note(&mut self, batch: &Batch, first: u64) {
        match batch.kind {
            Kind::Prepare => self.prepared = first,
            Kind::TailMake => self.tails = first,
            Kind::BucketSwap => self.records = first,
            _ => {}
        }
        if batch.from == 0 && batch.kind.changes_entry() {
            self.revision = self.revision.wrapping_add(1);
        }
    }
}

/// A realm with a container of one shard.
#[derive(Drop)]
pub struct Bench {
    pub stage: RealmStage,
    pub settings: Settings,
    sample: Sample,
    marks: Marks,
}

impl Bench {
    /// With so many frames of `frame` bytes.
    pub fn new(alloc: Global, sample: Sample, frame: u32, frames: u32) -> anyhow::Result<Bench> {
        let settings = Settings::new(
            1,
            STRIPE,
            frame,
            frames,
            1,
            120_000_000,
            7_200_000_000,
            5_368_709_120,
            100_000,
        );
        let settings = settings.context("the settings are within their bounds")?;
        let mut bench = Bench {
            stage: RealmStage::new(alloc, &settings)?,
            settings,
            sample,
            marks: Marks {
                prepared: 0,
                tails: 0,
                records: 0,
                revision: 0,
            },
        };
        match bench.make_container(alloc) {
            Ok(()) => Ok(bench),
            Err(error) => {
                drop(bench);
                Err(error)
            }
        }
    }

    fn make_container(&mut self, alloc: Global) -> anyhow::Result<()> {
        let shard = Op::ShardMake {
            zone: 1,
            key: SHARD,
        };
        self.make_event(alloc, shard)?;
        let record = first_record(alloc)?;
        self.make_event(alloc, record)?;
        Ok(())
    }

    /// So many events of one kind.
    pub fn run<R: Clock>(
        &mut self,
        rt: &R,
        alloc: Global,
        kind: Kind,
        names: Names,
        count: u32,
    ) -> anyhow::Result<Round> {
        let mut round = Round::new(alloc);
        for chunk in 0..count.div_ceil(CHUNK) {
            let from = chunk.saturating_mul(CHUNK);
            let batch = Batch {
                kind,
                names,
                from,
                count: CHUNK.min(count.saturating_sub(from)),
            };
            let refused = self.time_batch(rt, alloc, &batch)?;
            round.add(refused.of(u64::from(batch.count)), refused.count)?;
        }
        round.sort()?;
        Ok(round)
    }

    /// Times these events. How many were refused?
    pub fn time_batch<R: Clock>(
        &mut self,
        rt: &R,
        alloc: Global,
        batch: &Batch,
    ) -> anyhow::Result<Timed> {
        let ops = self.begin(alloc, batch)?;
        clocked(rt, || self.make_events(alloc, ops))
    }

    // The operations of a batch.
    fn begin(&mut self, alloc: Global, batch: &Batch) -> anyhow::Result<Vec<Op>> {
        let next = self.stage.events().saturating_add(1);
        let mut ops = Vec::new(alloc);
        for more in 0..batch.count {
            let number = next.saturating_add(u64::from(more));
            let index = u64::from(batch.from).saturating_add(u64::from(more));
            let subject = self.marks.subject(self.sample, batch, number, index);
            ops.push(batch.kind.op(alloc, &subject)?)?;
        }
        let first = next.saturating_sub(u64::from(batch.from));
        self.marks.note(batch, first);
        Ok(ops)
    }

    // Makes these events. How many were refused?
    fn make_events(&mut self, alloc: Global, ops: Vec<Op>) -> anyhow::Result<u64> {
        let mut refused: u64 = 0;
        for op in ops {
            if self.make_event(alloc, op)? {
                refused = refused.saturating_add(1);
            }
        }
        Ok(refused)
    }

    // Makes one event. Was it refused?
    fn make_event(&mut self, alloc: Global, op: Op) -> anyhow::Result<bool> {
        match self.stage.step(alloc, op, 0) {
            Ok(answered) => {
                let refused = matches!(&answered.reply, Reply::No(_));
                drop(answered);
                Ok(refused)
            }
            Err(stopped) => {
                let fault = stopped.fault;
                drop(stopped);
                Err(fault.into())
            }
        }
    }
}
