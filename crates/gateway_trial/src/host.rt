//! A realm with one container, to which connections are served.

use anyhow::Context;
use container_preset::preset_bucket;
use gateway::{Served, serve_connection};
use gw_io::{SliceSource, StepClock, VecSink};
use object_words::BucketName;
use realm_model::Settings;
use realm_stage::RealmStage;
use rgw_types::Text;
use std::alloc::Global;
use std::str;
use swift_auth::Users;

/// The 14th of November 2023.
const MOMENT: u64 = 1_700_000_000_000_000;

/// How many bytes a read gives at most.
const PIECE: usize = 7;

/// Stripes and frames of 16 bytes, so many frames, and one shard.
pub fn small(frames: u32) -> anyhow::Result<Settings> {
    sharded(frames, 1)
}

/// The same with eleven shards.
pub fn many(frames: u32) -> anyhow::Result<Settings> {
    sharded(frames, 11)
}

fn sharded(frames: u32, shards: u32) -> anyhow::Result<Settings> {
    let settings = Settings::new(
        1,
        16,
        16,
        frames,
        shards,
        120_000_000,
        7_200_000_000,
        5_368_709_120,
        100_000,
    );
    settings.context("the settings are within their bounds")
}

/// A realm in which the container `box` of the account of the standard user was made.
pub fn realm_with_box(alloc: Global, settings: &Settings) -> anyhow::Result<RealmStage> {
    let mut stage = RealmStage::new(alloc, settings)?;
    let name = Text::from_str(alloc, "box")?;
    let bucket = BucketName::new(name).ok().context("a name of a container")?;
    let owner = Text::from_str(alloc, "acme")?;
    let settings = stage.settings();
    preset_bucket(alloc, &settings, &mut stage, &bucket, &owner, MOMENT)?;
    Ok(stage)
}

/// Serves one connection where there is the standard user: what was written to it, and how it ended.
pub fn replies(
    alloc: Global,
    stage: &mut RealmStage,
    bytes: &[u8],
) -> anyhow::Result<(Vec<u8>, Served)> {
    let settings = stage.settings();
    let users = Users::standard(alloc)?;
    settings.has_zone_one();
    let mut source = SliceSource::new(bytes, PIECE, &[]);
    let mut sink = VecSink::new(alloc, 4096, &[]);
    let mut clock = StepClock::new(MOMENT, 0);
    let served = serve_connection(
        alloc,
        &settings,
        &users,
        stage,
        1,
        &mut source,
        &mut sink,
        &mut clock,
    )?;
    Ok((sink.into_bytes(), served))
}

/// Serves one connection, and prints what was written to it and how it ended.
pub fn serve<R: Print>(
    rt: &R,
    alloc: Global,
    stage: &mut RealmStage,
    bytes: &[u8],
) -> anyhow::Result<()> {
    let (written, served) = replies(alloc, stage, bytes)?;
    let text = str::from_utf8(&written).context("replies in UTF-8")?;
    println!(rt; "{text}")?;
    let requests = served.requests;
    let end = served.end;
    println!(rt; "-- {requests} replies, {end:?}")?;
    Ok(())
}
