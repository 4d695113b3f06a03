ghost use Rattle.std.specs.Prelude.{◌≡◌, ◌+◌, ◌*◌, ◌<◌, ◌≤◌, ◌↔◌, IsSome, IfSome};
ghost use Rattle.rgw_types.specs.Stripes.{IsManifest, tails_of};

use crate::LAST_PART;
use std::marker::Model;

/// Where the bytes of an object are (Ceph manual, Data Layout): its first `stripe` bytes in its head, and
/// each further stripe in a tail of its own, which is named by the write and its number from 1.
///
/// A stripe has 16 to 4194304 bytes, and an object at most 5368709120.
#[derive(Clone, Copy, Debug, PartialEq, Eq)]
pub struct Manifest {
    /// The number of the write that made the tails.
    pub write: u64,
    /// How many bytes a stripe has.
    pub stripe: u32,
    /// How many bytes the object has.
    pub size: u64,
}

impl Model for Manifest {
    ghost use Rattle.rgw_types.specs.Stripes.{ManifestView, IsManifest};

    ghost Value = { ManifestView };

    ghost view = { λ m. record { write = m.write; stripe = m.stripe; size = m.size } };

    ghost invariant = { λ m. IsManifest (record { write = m.write; stripe = m.stripe; size = m.size }) };

    ghost inverse = { λ m. record { write = m.write; stripe = m.stripe; size = m.size } };
}

impl Manifest {
    pub const LEAST_STRIPE: u32 = 16;

    pub const GREATEST_STRIPE: u32 = 4_194_304;

    pub const GREATEST_SIZE: u64 = 5_368_709_120;

    /// A manifest of these numbers, where they are within the bounds.
    pub fn new(write: u64, stripe: u32, size: u64) -> Option<Self>
        ensures made { IfSome result (λ m. m ≡ record { write = write; stripe = stripe; size = size }) }
        ensures bounds { IsSome result ↔ IsManifest (record { write = write; stripe = stripe; size = size }) }
    {
        if stripe < Self::LEAST_STRIPE
            || stripe > Self::GREATEST_STRIPE
            || size > Self::GREATEST_SIZE
        {
            return None;
        }
        Some(Manifest {
            write,
            stripe,
            size,
        })
    }

    /// How many tails the object has: the least number of stripes that, with the head's, hold its bytes.
    pub fn tails(&self) -> u32
        ensures value { result ≡ tails_of self.now }
        ensures bounds { IsManifest self.now }
        ensures most { result ≤ LAST_PART }
        ensures enough { self.now.size ≤ (result + 1) * self.now.stripe }
        ensures least { 0 < result → result * self.now.stripe < self.now.size }
    {
        let stripe = u64::from(self.stripe);
        self.size.saturating_sub(stripe).div_ceil(stripe) as u32
    }
}

/// How many tails objects of a few sizes have where a stripe has 16 bytes.
pub fn tails_are_counted_so()
    ensures none { tails_of (record { write = 5; stripe = 16; size = 0 }) ≡ 0 }
    ensures full_head { tails_of (record { write = 5; stripe = 16; size = 16 }) ≡ 0 }
    ensures one_byte { tails_of (record { write = 5; stripe = 16; size = 17 }) ≡ 1 }
    ensures full_tail { tails_of (record { write = 5; stripe = 16; size = 32 }) ≡ 1 }
    ensures second_tail { tails_of (record { write = 5; stripe = 16; size = 33 }) ≡ 2 }
    ensures greatest { tails_of (record { write = 5; stripe = 16; size = 5368709120 }) ≡ LAST_PART }
{}
