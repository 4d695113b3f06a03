//! The container, its objects, and who asks.

use anyhow::Context;
use object_words::{BucketName, Conditions, ObjectName};
use realm_model::Settings;
use rgw_types::Text;
use std::alloc::Global;
use swift_auth::Users;
use task_words::Asker;

/// How long a tag lives, in microseconds.
pub const TAG_LIFE: u64 = 120_000_000;

/// The settings of a program to which none are given, with so many shards to a new container.
pub fn usual(shards: u32) -> anyhow::Result<Settings> {
    settings_of(4_194_304, 4096, 64, shards)
}

/// Stripes and frames of 16 bytes, so many frames, and one shard.
pub fn small(frames: u32) -> anyhow::Result<Settings> {
    settings_of(16, 16, frames, 1)
}

fn settings_of(stripe: u32, frame: u32, frames: u32, shards: u32) -> anyhow::Result<Settings> {
    let settings = Settings::new(
        1,
        stripe,
        frame,
        frames,
        shards,
        TAG_LIFE,
        7_200_000_000,
        5_368_709_120,
        100_000,
    );
    settings.context("the settings are within their bounds")
}

pub fn account(alloc: Global) -> anyhow::Result<Text> {
    Ok(Text::from_str(alloc, "acme")?)
}

pub fn bucket_name(alloc: Global) -> anyhow::Result<BucketName> {
    let text = Text::from_str(alloc, "box")?;
    BucketName::new(text).ok().context("a name of a container")
}

pub fn object_name(alloc: Global, name: &str) -> anyhow::Result<ObjectName> {
    let text = Text::from_str(alloc, name)?;
    ObjectName::new(text).ok().context("a name of an object")
}

/// The first of the standard users.
pub fn asker(alloc: Global) -> anyhow::Result<Asker> {
    let users = Users::standard(alloc).ok().context("the standard users")?;
    Ok(Asker {
        account: account(alloc)?,
        user: Some(users.first().clone()?),
    })
}

pub fn always() -> Conditions {
    Conditions {
        matches: None,
        none: None,
        modified: None,
        unmodified: None,
    }
}
