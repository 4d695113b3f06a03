// What callers prove from the contracts alone.
ghost use Rattle.std.specs.Prelude.{◌≡◌, ◌≢◌, ◌+◌, ◌<◌, ◌≤◌, ◌⊎◌, ℕ, List, None, Some, IfOk, length, take, drop};
ghost use Rattle.std.specs.List.{concat};
ghost use Rattle.manifest.specs.Ranges.{AreContents, bytes_along};

use manifest::{Manifest, ManifestBytes, OutOfMemory, Parts};
use std::alloc::Global;

// A manifest comes back from its bytes.
fn comes_back(manifest: Manifest) -> Option<Manifest>
    ensures { result ≡ Some manifest }
{
    Manifest::decode(&manifest.encode())
}

// Bytes that were read are written as they were.
fn written_again(bytes: &[u8]) -> Option<[u8; 21]>
    ensures { (result ≡ None) ⊎ (result ≡ Some bytes.now) }
{
    match Manifest::decode(bytes) {
        Some(manifest) => Some(manifest.encode()),
        None => None,
    }
}

// The whole object, part by part.
fn whole(alloc: Global, manifest: &Manifest) -> Result<Parts, OutOfMemory>
    ensures { IfOk result (λ parts.
        (contents : List (List ℕ)) → AreContents manifest.now contents → bytes_along contents parts ≡ concat contents) }
{
    manifest.parts(alloc, 0, manifest.size)
}
