ghost use Rattle.std.specs.Prelude.{◌≡◌, ◌≢◌, ℕ, ◌+◌, ◌/◌, ◌<◌, ◌≤◌, List, All, IsOk, IfOk, IfSome, IfNone, Some, drop, length, map, take};
ghost use Rattle.std.specs.Int.{w32, w64, from_be_bytes};
ghost use Rattle.std.specs.List.{concat, range_with_len};
ghost use Rattle.rgw_types.specs.Stripes.{ManifestView, IsManifest, tails_of};
ghost use Rattle.manifest.specs.Layouts.{encoding};
ghost use Rattle.manifest.specs.Ranges.{part_size, parts_of, IsWithin, AreContents, bytes_along};

use crate::ranges::pieces_of;
use crate::{OutOfMemory, Parts};
use rgw_types::Manifest;
use std::alloc::Global;

/// How many bytes the first layout has.
const ENCODING_LEN: usize = 21;

/// The number of the first layout, with which its bytes begin.
const LAYOUT: u8 = 1;

/// The bytes of a manifest, and its object's parts: part 0 is the head, and part k the tail k.
pub trait ManifestBytes {
    /// What the manifest says.
    ghost manifest: { Self → ManifestView };

    /// How many bytes a part has; a part that the object does not have has none.
    fn part_size(&self, part: u32) -> u64
        ensures value { result ≡ part_size (manifest self.now) part }
        ensures full { part < tails_of (manifest self.now) → result ≡ (manifest self.now).stripe }
        ensures filled { 0 < part → part ≤ tails_of (manifest self.now) → 0 < result }
        ensures none { tails_of (manifest self.now) < part → result ≡ 0 };

    /// The pieces that the bytes `start` to `start + count` of the object have in its parts, in order and
    /// without empty ones. Memory is taken once, for the list.
    fn parts(&self, alloc: Global, start: u64, count: u64) -> Result<Parts, OutOfMemory>
        requires { start + count ≤ (manifest self.now).size }
        ensures empty { count ≡ 0 → IsOk result }
        ensures pieces { IfOk result (λ parts. parts ≡ parts_of (manifest self.now) start count) }
        ensures within { IfOk result (λ parts. All (IsWithin (manifest self.now)) parts) }
        ensures in_order { IfOk result (λ parts.
            map (λ p. p.part) parts ≡ range_with_len (start / (manifest self.now).stripe) (length parts)) }
        ensures covers { IfOk result (λ parts.
            (contents : List (List ℕ)) → AreContents (manifest self.now) contents →
            bytes_along contents parts ≡ take count (drop start (concat contents))) }
        ensures whole { IfOk result (λ parts. start ≡ 0 → count ≡ (manifest self.now).size →
            (contents : List (List ℕ)) → AreContents (manifest self.now) contents →
            bytes_along contents parts ≡ concat contents) };

    /// The manifest in the first layout: `01`, then the write in 8 bytes, the stripe in 4 and the size in
    /// 8, each with its high byte first.
    fn encode(&self) -> [u8; 21]
        ensures form { result ≡ encoding (manifest self.now) }
        ensures bounds { IsManifest (manifest self.now) };

    /// The manifest that is written so, if one is.
    fn decode(bytes: &[u8]) -> Option<Manifest>
        ensures found { IfSome result (λ m. IsManifest m × (bytes.now ≡ encoding m)) }
        ensures none { IfNone result ((m : ManifestView) → IsManifest m → bytes.now ≢ encoding m) }
        ensures exact { (m : ManifestView) → IsManifest m → bytes.now ≡ encoding m → result ≡ Some m };
}

impl ManifestBytes for Manifest {
    ghost manifest = { λ m. m };

    fn part_size(&self, part: u32) -> u64 {
        let stripe = u64::from(self.stripe);
        let before = u64::from(part) * stripe;
        stripe.min(self.size.saturating_sub(before))
    }

    fn parts(&self, alloc: Global, start: u64, count: u64) -> Result<Parts, OutOfMemory> {
        if count == 0 {
            return Ok(Parts::from_vec(Vec::new(alloc)));
        }
        let pieces = pieces_of(self, alloc, start, count)?;
        Ok(Parts::from_vec(pieces))
    }

    fn encode(&self) -> [u8; 21] {
        let write = self.write.to_be_bytes();
        let stripe = self.stripe.to_be_bytes();
        let size = self.size.to_be_bytes();
        [
            LAYOUT, write[0], write[1], write[2], write[3], write[4], write[5], write[6], write[7],
            stripe[0], stripe[1], stripe[2], stripe[3], size[0], size[1], size[2], size[3],
            size[4], size[5], size[6], size[7],
        ]
    }

    fn decode(bytes: &[u8]) -> Option<Manifest> {
        if bytes.len() != ENCODING_LEN || bytes[0] != LAYOUT {
            return None;
        }
        Manifest::new(u64_at(bytes, 1), u32_at(bytes, 9), u64_at(bytes, 13))
    }
}

/// The number in the eight bytes from a place on.
fn u64_at(bytes: &[u8], at: usize) -> u64
    requires { at + 8 ≤ length bytes.now }
    ensures { result ≡ from_be_bytes w64 (take 8 (drop at bytes.now)) }
{
    let part = &bytes[at..at + 8];
    u64::from_be_bytes([
        part[0], part[1], part[2], part[3], part[4], part[5], part[6], part[7],
    ])
}

/// The number in the four bytes from a place on.
fn u32_at(bytes: &[u8], at: usize) -> u32
    requires { at + 4 ≤ length bytes.now }
    ensures { result ≡ from_be_bytes w32 (take 4 (drop at bytes.now)) }
{
    let part = &bytes[at..at + 4];
    u32::from_be_bytes([part[0], part[1], part[2], part[3]])
}
