ghost use Rattle.std.specs.Prelude.{◌≡◌, ◌≢◌, ◌+◌, ◌^◌, ◌<◌, ◌≤◌, ◌∷◌, ◌++◌, ℕ, List, Some, true, IfOk, IfSome, IfNone, length, drop};
ghost use Rattle.std.specs.Str.{IsUtf8};
ghost use Rattle.object_words.specs.Limits.{is_name};
ghost use Rattle.object_words.specs.declared.log.LogWhat.{LogWhat as WhatOf};
ghost use Rattle.object_words.specs.declared.log.LogWhat.TheVariants.{Name as AName, Shard as AShard, Bucket as ABucket};
ghost use Rattle.index_entry.specs.LogRows.{IsNameText, IsWhat, WritesWhat, log_key, shard_bytes, what_bytes};

use crate::OutOfMemory;
use crate::numbers::{put, u32_at, u64_at};
use object_words::{BucketName, LogWhat, Name, ObjectName};
use rgw_types::Text;
use std::alloc::Global;

/// The first byte of a row's value.
const KIND: u8 = 0xec;

/// The number of the first layout.
const LAYOUT: u8 = 1;

/// A row that names an object.
const NAME: u8 = 0;

/// A row that names a shard.
const SHARD: u8 = 1;

/// A row that names a container.
const BUCKET: u8 = 2;

/// How many bytes the key of a row has.
pub const LOG_KEY_LEN: usize = 9;

/// More bytes than the value of a row has.
pub const LOG_ROW_MOST: usize = 1040;

/// The key of the row at a position: `00`, then the position in eight bytes. No name begins so. Takes no
/// memory.
#[tactic(auto, unfolding(crate::specs::Numbers::number_bytes))]
pub fn log_key(position: u64) -> [u8; 9]
    ensures { result ≡ log_key position }
{
    let number = position.to_be_bytes();
    [
        0, number[0], number[1], number[2], number[3], number[4], number[5], number[6], number[7],
    ]
}

/// The position of the row with this key, where it is the key of one. Takes no memory.
pub fn position_of(key: &[u8]) -> Option<u64>
    ensures found { IfSome result (λ position. (position < 2 ^ 64) × (key.now ≡ log_key position)) }
    ensures exact { (position : ℕ) → position < 2 ^ 64 → key.now ≡ log_key position → result ≡ Some position }
    ensures none { IfNone result ((position : ℕ) → position < 2 ^ 64 → key.now ≢ log_key position) }
{
    if key.len() != LOG_KEY_LEN || key[0] != 0 {
        return None;
    }
    Some(u64_at(key, 1))
}

/// Writes the value of a row of a shard's log, and gives how many bytes it is. Takes no memory.
pub fn write_name_row(name: &ObjectName, out: &mut [u8; 1040]) -> usize
    ensures { WritesWhat (AName name.now) 1027 result out.old out.new }
{
    put_name(out, NAME, name)
}

/// Writes the value of a row of the log of a zone's containers, and gives how many bytes it is. Takes no
/// memory.
pub fn write_bucket_row(name: &BucketName, out: &mut [u8; 1040]) -> usize
    ensures { WritesWhat (ABucket name.now) 259 result out.old out.new }
{
    put_name(out, BUCKET, name)
}

/// Writes the value of a row of the log of a zone's data, and gives how many bytes it is: the numbers of
/// the container and of the instance in eight bytes each, that of the shard in four, then the name of the
/// container. Takes no memory.
pub fn write_shard_row(
    container: u64,
    instance: u64,
    shard: u32,
    bucket: &BucketName,
    out: &mut [u8; 1040],
) -> usize
    ensures { WritesWhat (AShard container instance shard bucket.now) 279 result out.old out.new }
{
    let name = bucket.as_text().as_str();
    let at = put(out, 0, &[KIND, LAYOUT, SHARD]);
    let at = put(out, at, &container.to_be_bytes());
    let at = put(out, at, &instance.to_be_bytes());
    let at = put(out, at, &shard.to_be_bytes());
    put(out, at, name.as_bytes())
}

/// Writes the value of a row that names this, and gives how many bytes it is. Takes no memory.
pub fn write_what(what: &LogWhat, out: &mut [u8; 1040]) -> usize
    ensures { WritesWhat what.now 1027 result out.old out.new }
{
    match what {
        LogWhat::Name(name) => write_name_row(name, out),
        LogWhat::Shard {
            container,
            instance,
            shard,
            bucket,
        } => write_shard_row(*container, *instance, *shard, bucket, out),
        LogWhat::Bucket(name) => write_bucket_row(name, out),
    }
}

/// What the row with this value names, where it is the value of one.
pub fn decode_what(alloc: Global, bytes: &[u8]) -> Result<Option<LogWhat>, OutOfMemory>
    ensures found { IfOk result (λ found. IfSome found (λ what. IsWhat what × (bytes.now ≡ what_bytes what))) }
    ensures exact { IfOk result (λ found. (what : WhatOf) → IsWhat what → bytes.now ≡ what_bytes what → found ≡ Some what) }
    ensures none { IfOk result (λ found. IfNone found ((what : WhatOf) → IsWhat what → bytes.now ≢ what_bytes what)) }
{
    if bytes.len() < 3 || bytes[0] != KIND || bytes[1] != LAYOUT {
        return Ok(None);
    }
    match bytes[2] {
        NAME => Ok(name_in(alloc, &bytes[3..])?.map(LogWhat::Name)),
        SHARD => shard_in(alloc, &bytes[3..]),
        BUCKET => Ok(name_in(alloc, &bytes[3..])?.map(LogWhat::Bucket)),
        _ => Ok(None),
    }
}

/// The shard that is written so, if one is.
fn shard_in(alloc: Global, bytes: &[u8]) -> Result<Option<LogWhat>, OutOfMemory>
    ensures found { IfOk result (λ found. IfSome found (λ what. IsWhat what × (236 ∷ 1 ∷ 1 ∷ bytes.now ≡ what_bytes what))) }
    ensures exact { IfOk result (λ found. (container instance shard : ℕ) (bucket : List ℕ) → IsWhat (AShard container instance shard bucket)
        → bytes.now ≡ shard_bytes container instance shard bucket → found ≡ Some (AShard container instance shard bucket)) }
    ensures none { IfOk result (λ found. IfNone found ((container instance shard : ℕ) (bucket : List ℕ) → IsWhat (AShard container instance shard bucket)
        → bytes.now ≢ shard_bytes container instance shard bucket)) }
{
    if bytes.len() < 20 {
        return Ok(None);
    }
    let Some(bucket) = name_in(alloc, &bytes[20..])? else {
        return Ok(None);
    };
    Ok(Some(LogWhat::Shard {
        container: u64_at(bytes, 0),
        instance: u64_at(bytes, 8),
        shard: u32_at(bytes, 16),
        bucket,
    }))
}

/// The name that is written so, if one is.
fn name_in<const MOST: usize>(
    alloc: Global,
    bytes: &[u8],
) -> Result<Option<Name<MOST>>, OutOfMemory>
    ensures found { IfOk result (λ found. IfSome found (λ name. IsNameText MOST name × (bytes.now ≡ name))) }
    ensures exact { IfOk result (λ found. IsNameText MOST bytes.now → found ≡ Some bytes.now) }
{
    let Ok(text) = str::from_utf8(bytes) else {
        return Ok(None);
    };
    if text.len() > MOST {
        return Ok(None);
    }
    Ok(Name::new(Text::from_str(alloc, text)?).ok())
}

/// Writes the value of a row of a kind with a name, and gives how many bytes it is.
fn put_name<const MOST: usize>(out: &mut [u8; 1040], kind: u8, name: &Name<MOST>) -> usize
    requires { MOST ≤ 1024 }
    ensures len { result ≡ 3 + length name.now }
    ensures most { result ≤ 3 + MOST }
    ensures written { out.new ≡ (236 ∷ 1 ∷ kind ∷ name.now) ++ drop result out.old }
    ensures bounds { IsNameText MOST name.now }
{
    let name = name.as_text().as_str();
    let at = put(out, 0, &[KIND, LAYOUT, kind]);
    put(out, at, name.as_bytes())
}
