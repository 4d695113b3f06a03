//! The kinds of events that are measured, and their operations.
use crate::sample::Sample;
use anyhow::Context;
use object_words::{Bucket, Conditions, EntryRow, Guard, MediaType, NewHead, ShardCount, ShardKey};
use realm_model::Op;
use rgw_types::{Bytes, Manifest, Pairs, PartNumber, Stamp, Text};
use std::alloc::Global;
use swift_auth::Users;
use task_words::{Asker, GetCommand, PutCommand};

/// The one shard.
pub const SHARD: ShardKey = ShardKey {
    container: 1,
    instance: 1,
    shard: 0,
};

/// MD5 of "hello" (RFC 1321).
const ETAG: [u8; 16] = [
    0x5d, 0x41, 0x40, 0x2a, 0xbc, 0x4b, 0x2a, 0x76, 0xb9, 0x71, 0x9d, 0x91, 0x10, 0x17, 0xc5, 0x92,
];

/// A moment at which each tag is due.
const LATE: u64 = 1 << 60;

/// The account of each container.
const OWNER: &str = "acme";

/// The bytes of a stripe.
pub const STRIPE: u32 = 4_194_304;

/// The bytes of a tail.
const TAIL: u64 = 4096;

/// A kind of event.
#[derive(Clone, Copy, Debug)]
pub enum Kind {
    Prepare,
    Complete,
    Cancel,
    Suggest,
    /// A page of so many entries.
    Page(u32),
    Stats,
    HeadWrite,
    HeadRead,
    TailMake,
    TailRead,
    /// A container's record, put where none is.
    BucketMake,
    BucketSwap,
    BucketRead,
    /// A page of so many names of containers.
    BucketPage(u32),
    /// A page of so many names of an account's containers.
    AccountPage(u32),
    Announce,
}

/// What an operation is about.
#[derive(Clone, Copy, Debug)]
pub struct Subject {
    pub sample: Sample,
    /// The number of the object's name, and of the container's.
    pub name: u64,
    /// The number of the event.
    pub number: u64,
    pub tag: u64,
    /// The revision of the entry.
    pub revision: u64,
    /// The version of the container's record; 0 for none.
    pub version: u64,
    /// The write of the tail.
    pub write: u64,
}

impl Kind {
    /// Whether it changes nothing.
    pub fn reads(self) -> bool {
        matches!(
            self,
            Kind::Page(_)
                | Kind::Stats
                | Kind::HeadRead
                | Kind::TailRead
                | Kind::BucketRead
                | Kind::BucketPage(_)
                | Kind::AccountPage(_)
        )
    }

    /// Whether it changes an entry.
    pub fn changes_entry(self) -> bool {
        matches!(
            self,
            Kind::Prepare | Kind::Complete | Kind::Cancel | Kind::Suggest
        )
    }

    /// Its operation.
    pub fn op(self, alloc: Global, subject: &Subject) -> anyhow::Result<Op> {
        match self {
            Kind::Prepare | Kind::Complete | Kind::Cancel | Kind::Suggest => {
                self.entry_op(alloc, subject)
            }
            Kind::Page(limit) => page(alloc, subject, limit),
            Kind::Stats => Ok(Op::Stats {
                zone: 1,
                key: SHARD,
            }),
            Kind::HeadWrite => head_write(alloc, subject),
            Kind::HeadRead => head_read(alloc, subject),
            Kind::TailMake | Kind::TailRead => self.tail_op(alloc, subject.write),
            Kind::BucketMake => bucket_swap(alloc, subject, 0),
            Kind::BucketSwap => bucket_swap(alloc, subject, subject.version),
            Kind::BucketPage(limit) => bucket_page(alloc, subject, limit),
            Kind::AccountPage(limit) => account_page(alloc, subject, limit),
            Kind::BucketRead | Kind::Announce => self.bucket_op(alloc, subject),
        }
    }

    // A change of an entry.
    fn entry_op(self, alloc: Global, subject: &Subject) -> anyhow::Result<Op> {
        let name = subject.sample.object(alloc, subject.name)?;
        let row = row(alloc, subject.number)?;
        Ok(match self {
            Kind::Complete => Op::Complete {
                zone: 1,
                key: SHARD,
                name,
                tag: subject.tag,
                version: subject.number,
                row,
            },
            Kind::Suggest => Op::Suggest {
                zone: 1,
                key: SHARD,
                name,
                revision: subject.revision,
                seen: LATE,
                version: subject.number,
                row,
            },
            Kind::Cancel => Op::Cancel {
                zone: 1,
                key: SHARD,
                name,
                tag: subject.tag,
            },
            _ => Op::Prepare {
                zone: 1,
                key: SHARD,
                name,
            },
        })
    }

    fn tail_op(self, alloc: Global, write: u64) -> anyhow::Result<Op> {
        let part = PartNumber::new(1);
        Ok(match self {
            Kind::TailRead => Op::TailRead {
                zone: 1,
                write,
                part,
                start: 0,
                count: TAIL,
            },
            _ => Op::TailMake {
                zone: 1,
                write,
                part,
                bytes: Bytes::from_slice(alloc, &[b'y'; TAIL as usize])?,
            },
        })
    }

    fn bucket_op(self, alloc: Global, subject: &Subject) -> anyhow::Result<Op> {
        let name = subject.sample.bucket(alloc, subject.name)?;
        Ok(match self {
            Kind::Announce => Op::Announce {
                zone: 1,
                container: 1,
                instance: 1,
                shard: 0,
                bucket: name,
            },
            _ => Op::BucketRead { zone: 1, name },
        })
    }
}

fn page(alloc: Global, subject: &Subject, limit: u32) -> anyhow::Result<Op> {
    Ok(Op::Page {
        zone: 1,
        key: SHARD,
        after: subject.sample.text(alloc, subject.name)?,
        limit,
    })
}

fn head_read(alloc: Global, subject: &Subject) -> anyhow::Result<Op> {
    Ok(Op::HeadRead {
        zone: 1,
        container: 1,
        name: subject.sample.object(alloc, subject.name)?,
    })
}

fn head_write(alloc: Global, subject: &Subject) -> anyhow::Result<Op> {
    Ok(Op::HeadWrite {
        zone: 1,
        container: 1,
        name: subject.sample.object(alloc, subject.name)?,
        guard: Guard {
            tag: subject.tag,
            deadline: LATE,
        },
        new: new_head(alloc, subject)?,
        when: always(),
    })
}

fn new_head(alloc: Global, subject: &Subject) -> anyhow::Result<NewHead> {
    let first = subject.sample.content(alloc)?;
    let manifest = Manifest::new(subject.number, STRIPE, first.len() as u64);
    Ok(NewHead {
        manifest: manifest.context("a manifest")?,
        first,
        kind: media_type(alloc)?,
        meta: Pairs::new(alloc),
        etag: ETAG,
    })
}

fn media_type(alloc: Global) -> anyhow::Result<MediaType> {
    let text = Text::from_str(alloc, "application/octet-stream")?;
    MediaType::new(text).ok().context("a media type")
}

fn row(alloc: Global, micros: u64) -> anyhow::Result<EntryRow> {
    Ok(EntryRow {
        exists: true,
        size: 4321,
        stamp: Stamp { micros, zone: 1 },
        etag: ETAG,
        kind: media_type(alloc)?,
    })
}

fn bucket_page(alloc: Global, subject: &Subject, limit: u32) -> anyhow::Result<Op> {
    Ok(Op::BucketPage {
        zone: 1,
        after: subject.sample.bucket_text(alloc, subject.name)?,
        limit,
    })
}

fn account_page(alloc: Global, subject: &Subject, limit: u32) -> anyhow::Result<Op> {
    Ok(Op::AccountPage {
        zone: 1,
        account: Text::from_str(alloc, OWNER)?,
        after: subject.sample.bucket_text(alloc, subject.name)?,
        limit,
    })
}

// The record gets one metadatum.
fn bucket_swap(alloc: Global, subject: &Subject, expected: u64) -> anyhow::Result<Op> {
    let mut pairs = Vec::new(alloc);
    pairs.push((
        Text::from_str(alloc, "colour")?,
        Text::from_str(alloc, "blue")?,
    ))?;
    let meta = Pairs::from_vec(pairs).ok().context("one metadatum")?;
    Ok(Op::BucketSwap {
        zone: 1,
        name: subject.sample.bucket(alloc, subject.name)?,
        expected,
        new: Some(record(alloc, subject.number, meta)?),
    })
}

/// The record of the one container, put where none is.
pub fn first_record(alloc: Global) -> anyhow::Result<Op> {
    Ok(Op::BucketSwap {
        zone: 1,
        name: Sample::Heads.bucket(alloc, 0)?,
        expected: 0,
        new: Some(record(alloc, 1, Pairs::new(alloc))?),
    })
}

fn record(alloc: Global, id: u64, meta: Pairs) -> anyhow::Result<Bucket> {
    Ok(Bucket {
        id,
        owner: Text::from_str(alloc, OWNER)?,
        version: 0,
        shared: 0,
        number: 0,
        busy: None,
        instance: id,
        shards: ShardCount::new(1).context("one shard is allowed")?,
        meta,
        readers: Text::new(alloc),
        writers: Text::new(alloc),
    })
}

/// A PUT of the name of this number.
pub fn put_of(alloc: Global, name: u64) -> anyhow::Result<PutCommand> {
    Ok(PutCommand {
        container: Sample::Heads.bucket(alloc, 0)?,
        name: Sample::Heads.object(alloc, name)?,
        kind: None,
        meta: Pairs::new(alloc),
        etag: None,
        when: always(),
    })
}

/// A GET of the name of this number.
pub fn get_of(alloc: Global, name: u64) -> anyhow::Result<GetCommand> {
    Ok(GetCommand {
        container: Sample::Heads.bucket(alloc, 0)?,
        name: Sample::Heads.object(alloc, name)?,
        when: always(),
        span: None,
        body: true,
    })
}

fn always() -> Conditions {
    Conditions {
        matches: None,
        none: None,
        modified: None,
        unmodified: None,
    }
}

/// The first of the standard users.
pub fn asker(alloc: Global) -> anyhow::Result<Asker> {
    let users = Users::standard(alloc).ok().context("the standard users")?;
    Ok(Asker {
        account: Text::from_str(alloc, "acme")?,
        user: Some(users.first().clone()?),
    })
}
