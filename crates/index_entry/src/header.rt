ghost use Rattle.std.specs.Prelude.{◌≡◌, ◌≢◌, ◌^◌, ◌<◌, Some, IfSome, IfNone};
ghost use Rattle.object_words.specs.declared.shard.Hold.{Hold as HoldOf};
ghost use Rattle.object_words.specs.declared.shard.Fate.{Fate as FateOf};
ghost use Rattle.index_entry.specs.declared.header.ShardHeader.{ShardHeader as HeaderOf};
ghost use Rattle.index_entry.specs.Headers.{IsHeader, fate_kind, fate_number, header_bytes, hold_kind, hold_number};

use crate::numbers::{put, u64_at};
use object_words::{Fate, Hold};

/// How many bytes a header has.
pub const HEADER_LEN: usize = 68;

/// The first byte of a header.
const KIND: u8 = 0xed;

/// The number of the first layout.
const LAYOUT: u8 = 1;

/// One more than the greatest number of eight bytes.
const HALF: u128 = 1 << 64;

/// What a shard keeps beside its entries and the rows of its log.
#[derive(Clone, Copy, Debug, PartialEq, Eq)]
pub struct ShardHeader {
    /// How many objects exist.
    pub objects: u64,
    /// The sum of their sizes.
    pub bytes: u128,
    /// How many changes are under way.
    pub tags: u64,
    /// The last position that its log gave; 0 for none.
    pub last: u64,
    pub hold: Hold,
    pub fate: Fate,
    /// A hold with this number or a lower one is refused.
    pub fence: u64,
}

/// The header that is written so, if one is. Takes no memory.
pub fn decode_header(bytes: &[u8]) -> Option<ShardHeader>
    ensures found { IfSome result (λ h. IsHeader h × (bytes.now ≡ header_bytes h)) }
    ensures exact { (h : HeaderOf) → IsHeader h → bytes.now ≡ header_bytes h → result ≡ Some h }
    ensures none { IfNone result ((h : HeaderOf) → IsHeader h → bytes.now ≢ header_bytes h) }
{
    if bytes.len() != HEADER_LEN || bytes[0] != KIND || bytes[1] != LAYOUT {
        return None;
    }
    let hold = hold_of(bytes[50], u64_at(bytes, 51))?;
    let fate = fate_of(bytes[59], u64_at(bytes, 60))?;
    Some(ShardHeader {
        objects: u64_at(bytes, 2),
        bytes: u128::from(u64_at(bytes, 10)) * HALF + u128::from(u64_at(bytes, 18)),
        tags: u64_at(bytes, 26),
        last: u64_at(bytes, 34),
        fence: u64_at(bytes, 42),
        hold,
        fate,
    })
}

/// The bytes of a header: `ed`, `01`, then the objects, the high and the low half of the sum of sizes,
/// the tags, the last position and the fence, then a kind and a number of the hold, and of the fate.
/// Takes no memory.
pub fn encode_header(header: &ShardHeader) -> [u8; 68]
    ensures form { result ≡ header_bytes header.now }
    ensures bounds { IsHeader header.now }
{
    let ShardHeader {
        objects,
        bytes,
        tags,
        last,
        hold,
        fate,
        fence,
    } = *header;
    let high = (bytes / HALF) as u64;
    let low = (bytes % HALF) as u64;
    let (hold_kind, hold_number) = hold_parts(hold);
    let (fate_kind, fate_number) = fate_parts(fate);
    let mut out = [0; HEADER_LEN];
    let at = put(&mut out, 0, &[KIND, LAYOUT]);
    let at = put(&mut out, at, &objects.to_be_bytes());
    let at = put(&mut out, at, &high.to_be_bytes());
    let at = put(&mut out, at, &low.to_be_bytes());
    let at = put(&mut out, at, &tags.to_be_bytes());
    let at = put(&mut out, at, &last.to_be_bytes());
    let at = put(&mut out, at, &fence.to_be_bytes());
    let at = put(&mut out, at, &[hold_kind]);
    let at = put(&mut out, at, &hold_number.to_be_bytes());
    let at = put(&mut out, at, &[fate_kind]);
    put(&mut out, at, &fate_number.to_be_bytes());
    out
}

fn hold_of(kind: u8, number: u64) -> Option<Hold>
    ensures found { IfSome result (λ hold. (hold_kind hold ≡ kind) × (hold_number hold ≡ number)) }
    ensures exact { (hold : HoldOf) → hold_kind hold ≡ kind → hold_number hold ≡ number → result ≡ Some hold }
{
    match kind {
        0 if number == 0 => Some(Hold::Free),
        1 => Some(Hold::Reshard(number)),
        2 => Some(Hold::Closing(number)),
        _ => None,
    }
}

fn hold_parts(hold: Hold) -> (u8, u64)
    ensures kind { result.0 ≡ hold_kind hold }
    ensures number { result.1 ≡ hold_number hold }
{
    match hold {
        Hold::Free => (0, 0),
        Hold::Reshard(number) => (1, number),
        Hold::Closing(number) => (2, number),
    }
}

fn fate_of(kind: u8, number: u64) -> Option<Fate>
    ensures found { IfSome result (λ fate. (fate_kind fate ≡ kind) × (fate_number fate ≡ number)) }
    ensures exact { (fate : FateOf) → fate_kind fate ≡ kind → fate_number fate ≡ number → result ≡ Some fate }
{
    match kind {
        0 if number == 0 => Some(Fate::Serving),
        1 => Some(Fate::Moved(number)),
        2 if number == 0 => Some(Fate::Closed),
        _ => None,
    }
}

fn fate_parts(fate: Fate) -> (u8, u64)
    ensures kind { result.0 ≡ fate_kind fate }
    ensures number { result.1 ≡ fate_number fate }
{
    match fate {
        Fate::Serving => (0, 0),
        Fate::Moved(instance) => (1, instance),
        Fate::Closed => (2, 0),
    }
}
