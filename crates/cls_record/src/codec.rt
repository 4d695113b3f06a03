ghost use Rattle.std.specs.Prelude.{◌≡◌, ◌≢◌, ◌^◌, ◌<◌, ◌≤◌, ◌++◌, ◌∷◌, ℕ, List, Some, true, IsTrue, Option, IfOk, IfSome, IfNone, OnOk, length};
ghost use Rattle.std.specs.List.{AllByRecursion};
ghost use Rattle.std.specs.Option.{IsSomeAnd};
ghost use Rattle.rgw_types.specs.Pairs.{is_risen};
ghost use Rattle.object_words.specs.Limits.{shard_limit};
ghost use Rattle.object_words.specs.declared.bucket.Bucket.{Bucket as BucketOf};
ghost use Rattle.object_words.specs.declared.bucket.Busy.{Busy as BusyOf};
ghost use Rattle.index_entry.specs.Numbers.{number_bytes};
ghost use Rattle.cls_record.specs.BucketRows.{IsBucket, IsPair, IsShared, IsText, bucket_bytes, busy_kind, busy_number, own_then, pairs_bytes, shared_bytes, shared_then};

use crate::OutOfMemory;
use crate::reader::{Reader, put_number, put_text};
use object_words::{Bucket, Busy, ShardCount};
use rgw_types::{Bytes, Pairs, Text};
use std::alloc::Global;

/// The first byte of a row.
const KIND: u8 = 0xeb;

/// The number of the first layout.
const LAYOUT: u8 = 1;

/// How many bytes stand before the part that zones share.
pub(crate) const OWN_LEN: usize = 51;

/// The row of a container that is written so, if one is.
pub fn decode_bucket(alloc: Global, bytes: &[u8]) -> Result<Option<Bucket>, OutOfMemory>
    ensures found { IfOk result (λ found. IfSome found (λ b. IsBucket b × (bytes.now ≡ bucket_bytes b))) }
    ensures exact { IfOk result (λ found. (b : BucketOf) → IsBucket b → bytes.now ≡ bucket_bytes b → found ≡ Some b) }
    ensures none { IfOk result (λ found. IfNone found ((b : BucketOf) → IsBucket b → bytes.now ≢ bucket_bytes b)) }
{
    let mut reader = Reader { rest: bytes };
    let Some(own) = own_part(&mut reader) else {
        return Ok(None);
    };
    let Some(shared) = shared_part(&mut reader) else {
        return Ok(None);
    };
    let Some(meta) = meta_in(alloc, reader.rest, shared.count)? else {
        return Ok(None);
    };
    Ok(Some(Bucket {
        id: shared.id,
        owner: Text::from_str(alloc, shared.owner)?,
        version: own.version,
        shared: own.shared,
        number: own.number,
        busy: own.busy,
        instance: own.instance,
        shards: own.shards,
        meta,
        readers: Text::from_str(alloc, shared.readers)?,
        writers: Text::from_str(alloc, shared.writers)?,
    }))
}

/// What is a zone's own in a row.
#[derive(Drop)]
struct OwnPart {
    version: u64,
    shared: u64,
    number: u64,
    busy: Option<Busy>,
    instance: u64,
    shards: ShardCount,
}

/// What zones share in a row, before the pairs of its metadata.
#[derive(Drop)]
struct SharedPart<'a> {
    id: u64,
    owner: &'a str,
    readers: &'a str,
    writers: &'a str,
    /// How many pairs the metadata has.
    count: u64,
}

/// Reads what is the zone's own.
fn own_part(reader: &mut Reader<'_>) -> Option<OwnPart>
    ensures found { IfSome result (λ own. (own.version < 2 ^ 64) × (own.shared < 2 ^ 64) × (own.number < 2 ^ 64) × (busy_number own.busy < 2 ^ 64)
        × (own.instance < 2 ^ 64) × (1 ≤ own.shards) × (own.shards ≤ shard_limit)
        × (reader.old.rest.now ≡ own_then own.version own.shared own.number own.busy own.instance own.shards reader.new.rest.now)) }
    ensures exact { (b : BucketOf) (rest : List ℕ) → IsBucket b
        → reader.old.rest.now ≡ own_then b.version b.shared b.number b.busy b.instance b.shards rest
        → IsSomeAnd result (λ own. (own.version ≡ b.version) × (own.shared ≡ b.shared) × (own.number ≡ b.number) × (own.busy ≡ b.busy)
        × (own.instance ≡ b.instance) × (own.shards ≡ b.shards)) × (reader.new.rest.now ≡ rest) }
{
    let head = reader.bytes(2)?;
    if head[0] != KIND || head[1] != LAYOUT {
        return None;
    }
    let version = reader.number()?;
    let shared = reader.number()?;
    let number = reader.number()?;
    let busy = busy_part(reader)?;
    let instance = reader.number()?;
    let shards = shard_count(reader)?;
    Some(OwnPart {
        version,
        shared,
        number,
        busy,
        instance,
        shards,
    })
}

/// Reads the work on the shards.
fn busy_part(reader: &mut Reader<'_>) -> Option<Option<Busy>>
    ensures found { IfSome result (λ busy. (busy_number busy < 2 ^ 64) × (reader.old.rest.now ≡ busy_kind busy ∷ (number_bytes (busy_number busy) ++ reader.new.rest.now))) }
    ensures exact { (busy : Option BusyOf) (rest : List ℕ) → busy_number busy < 2 ^ 64
        → reader.old.rest.now ≡ busy_kind busy ∷ (number_bytes (busy_number busy) ++ rest) → (result ≡ Some busy) × (reader.new.rest.now ≡ rest) }
{
    let kind = reader.bytes(1)?;
    let number = reader.number()?;
    match kind[0] {
        0 if number == 0 => Some(None),
        1 => Some(Some(Busy {
            number,
            closing: false,
        })),
        2 => Some(Some(Busy {
            number,
            closing: true,
        })),
        _ => None,
    }
}

/// Reads how many shards there are.
fn shard_count(reader: &mut Reader<'_>) -> Option<ShardCount>
    ensures found { IfSome result (λ shards. (1 ≤ shards) × (shards ≤ shard_limit) × (reader.old.rest.now ≡ number_bytes shards ++ reader.new.rest.now)) }
    ensures exact { (shards : ℕ) (rest : List ℕ) → 1 ≤ shards → shards ≤ shard_limit
        → reader.old.rest.now ≡ number_bytes shards ++ rest → (result ≡ Some shards) × (reader.new.rest.now ≡ rest) }
{
    let count = reader.number()?;
    if count > u64::from(ShardCount::MOST) {
        return None;
    }
    ShardCount::new(count as u32)
}

/// Reads what zones share, before the pairs of the metadata.
fn shared_part<'a>(reader: &mut Reader<'a>) -> Option<SharedPart<'a>>
    ensures found { IfSome result (λ part. (part.id < 2 ^ 64) × IsText part.owner.now × IsText part.readers.now × IsText part.writers.now × (part.count < 2 ^ 64)
        × (reader.old.rest.now ≡ shared_then part.id part.owner.now part.readers.now part.writers.now part.count reader.new.rest.now)) }
    ensures exact { (b : BucketOf) (rest : List ℕ) → IsShared b
        → reader.old.rest.now ≡ shared_then b.id b.owner b.readers b.writers (length b.meta) rest
        → IsSomeAnd result (λ part. (part.id ≡ b.id) × (part.owner.now ≡ b.owner) × (part.readers.now ≡ b.readers) × (part.writers.now ≡ b.writers)
        × (part.count ≡ length b.meta)) × (reader.new.rest.now ≡ rest) }
{
    let id = reader.number()?;
    let owner = reader.text()?;
    let readers = reader.text()?;
    let writers = reader.text()?;
    let count = reader.number()?;
    Some(SharedPart {
        id,
        owner,
        readers,
        writers,
        count,
    })
}

/// The metadata, where the bytes are so many pairs by rising name and nothing more.
fn meta_in(alloc: Global, bytes: &[u8], count: u64) -> Result<Option<Pairs>, OutOfMemory>
    ensures found { IfOk result (λ found. IfSome found (λ meta. AllByRecursion IsPair meta × IsTrue (is_risen meta) × (length meta ≡ count)
        × (bytes.now ≡ pairs_bytes meta))) }
    ensures exact { IfOk result (λ found. (meta : List (List ℕ × List ℕ)) → AllByRecursion IsPair meta → is_risen meta ≡ true → length meta ≡ count
        → bytes.now ≡ pairs_bytes meta → found ≡ Some meta) }
{
    match pairs_in(alloc, bytes, count)? {
        None => Ok(None),
        Some(pairs) => Ok(Pairs::from_vec(pairs).ok()),
    }
}

/// So many pairs, where the bytes are these and nothing more.
fn pairs_in(
    alloc: Global,
    bytes: &[u8],
    count: u64,
) -> Result<Option<Vec<(Text, Text)>>, OutOfMemory>
    ensures found { IfOk result (λ found. IfSome found (λ pairs. AllByRecursion IsPair pairs.items × (length pairs.items ≡ count)
        × (bytes.now ≡ pairs_bytes pairs.items))) }
    ensures exact { IfOk result (λ found. (all : List (List ℕ × List ℕ)) → AllByRecursion IsPair all → length all ≡ count
        → bytes.now ≡ pairs_bytes all → IsSomeAnd found (λ pairs. pairs.items ≡ all)) }
{
    let mut reader = Reader { rest: bytes };
    let mut pairs = Vec::new(alloc);
    for _place in 0..count {
        let Some(name) = reader.text() else {
            return Ok(None);
        };
        let Some(value) = reader.text() else {
            return Ok(None);
        };
        pairs.push((Text::from_str(alloc, name)?, Text::from_str(alloc, value)?))?;
    }
    if !reader.rest.is_empty() {
        return Ok(None);
    }
    Ok(Some(pairs))
}

/// The bytes of a row: `eb`, `01`, then what is the zone's own, then what all zones share.
pub fn encode_bucket(alloc: Global, bucket: &Bucket) -> Result<Bytes, OutOfMemory>
    ensures form { IfOk result (λ bytes. bytes ≡ bucket_bytes bucket.now) }
    ensures bounds { IfOk result (λ bytes. IsBucket bucket.now) }
{
    let part = shared_bytes(alloc, bucket)?;
    row_with(
        alloc,
        bucket,
        bucket.version,
        bucket.shared,
        part.as_slice(),
    )
}

/// The bytes of a row with this version, this number of the shared part, and these bytes of it.
pub(crate) fn row_with(
    alloc: Global,
    bucket: &Bucket,
    version: u64,
    shared: u64,
    part: &[u8],
) -> Result<Bytes, OutOfMemory>
    ensures form { IfOk result (λ bytes. bytes ≡ own_then version shared bucket.now.number bucket.now.busy bucket.now.instance bucket.now.shards part.now) }
    ensures bounds { IfOk result (λ bytes. (version < 2 ^ 64) × (shared < 2 ^ 64) × (bucket.now.number < 2 ^ 64)
        × (busy_number bucket.now.busy < 2 ^ 64) × (bucket.now.instance < 2 ^ 64) × (1 ≤ bucket.now.shards) × (bucket.now.shards ≤ shard_limit)) }
{
    let (kind, busy) = busy_parts(bucket.busy);
    let shards = u64::from(bucket.shards.get());
    let mut out = Bytes::new(alloc);
    out.extend(&[KIND, LAYOUT])?;
    put_number(&mut out, version)?;
    put_number(&mut out, shared)?;
    put_number(&mut out, bucket.number)?;
    out.extend(&[kind])?;
    put_number(&mut out, busy)?;
    put_number(&mut out, bucket.instance)?;
    put_number(&mut out, shards)?;
    out.extend(part)?;
    Ok(out)
}

/// The work on the shards as a kind and a number.
fn busy_parts(busy: Option<Busy>) -> (u8, u64)
    ensures kind { result.0 ≡ busy_kind busy }
    ensures number { result.1 ≡ busy_number busy }
{
    match busy {
        None => (0, 0),
        Some(busy) if busy.closing => (2, busy.number),
        Some(busy) => (1, busy.number),
    }
}

/// The bytes of what all zones share.
pub(crate) fn shared_bytes(alloc: Global, bucket: &Bucket) -> Result<Bytes, OutOfMemory>
    ensures form { IfOk result (λ bytes. bytes ≡ shared_bytes bucket.now) }
    ensures bounds { IfOk result (λ bytes. IsShared bucket.now) }
{
    let meta = bucket.meta.as_slice();
    let mut out = Bytes::new(alloc);
    put_number(&mut out, bucket.id)?;
    put_text(&mut out, bucket.owner.as_str())?;
    put_text(&mut out, bucket.readers.as_str())?;
    put_text(&mut out, bucket.writers.as_str())?;
    put_number(&mut out, meta.len() as u64)?;
    put_pairs(&mut out, meta)?;
    Ok(out)
}

/// Writes pairs behind the bytes.
fn put_pairs(out: &mut Bytes, pairs: &[(Text, Text)]) -> Result<(), OutOfMemory>
    ensures ok { OnOk result (out.new ≡ out.old ++ pairs_bytes pairs.now) }
    ensures fits { OnOk result (AllByRecursion IsPair pairs.now) }
{
    for pair in pairs {
        put_text(out, pair.0.as_str())?;
        put_text(out, pair.1.as_str())?;
    }
    Ok(())
}
