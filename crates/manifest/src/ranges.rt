ghost use Rattle.std.specs.Prelude.{◌≡◌, ◌+◌, ◌-◌, ◌*◌, ◌/◌, ◌<◌, ◌≤◌, IfOk, map};
ghost use Rattle.std.specs.List.{range_with_len};
ghost use Rattle.rgw_types.specs.Stripes.{IsManifest};
ghost use Rattle.manifest.specs.Ranges.{piece_at};

use crate::{OutOfMemory, Part};
use rgw_types::Manifest;
use std::alloc::Global;

/// The pieces of a range that is not empty, one for each part from that of its first byte to that of its
/// last.
pub(crate) fn pieces_of(
    manifest: &Manifest,
    alloc: Global,
    start: u64,
    count: u64,
) -> Result<Vec<Part>, OutOfMemory>
    requires filled { 0 < count }
    requires inside { start + count ≤ manifest.now.size }
    ensures bounds { IsManifest manifest.now }
    ensures pieces { IfOk result (λ pieces.
        let stripe = manifest.now.stripe in
        let first = start / stripe in
        pieces.items ≡ map (piece_at manifest.now start count) (range_with_len first ((start + count - 1) / stripe + 1 - first))) }
{
    let stripe = u64::from(manifest.stripe);
    let first = start / stripe;
    let end = (start + count - 1) / stripe + 1;
    let mut pieces = Vec::new(alloc);
    pieces.reserve_exact((end - first) as usize)?;
    for part in first..end {
        pieces.push(piece_at(manifest, start, count, part))?;
    }
    Ok(pieces)
}

/// The piece of a range in a part that has bytes of it.
fn piece_at(manifest: &Manifest, start: u64, count: u64, part: u64) -> Part
    requires inside { start + count ≤ manifest.now.size }
    requires begins { start < (part + 1) * manifest.now.stripe }
    requires ends { part * manifest.now.stripe < start + count }
    ensures { result ≡ piece_at manifest.now start count part }
{
    let stripe = u64::from(manifest.stripe);
    let before = part * stripe;
    let from = start.saturating_sub(before);
    let to = stripe.min(start + count - before);
    Part {
        part: part as u32,
        start: from,
        count: to - from,
    }
}
