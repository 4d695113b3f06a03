ghost use Rattle.std.specs.Prelude.{◌≡◌, ◌≤◌, ◌↔◌, IsTrue, IsSome, IfSome};
ghost use Rattle.realm_model.specs.Settings.{IsSettings, IsBetween, settings_of};

use std::marker::Model;

/// What a realm is set to for its whole life.
#[derive(Clone, Copy, Debug, PartialEq, Eq)]
pub struct Settings {
    /// How many zones there are: 1 to 8.
    pub zones: u8,
    /// The bytes of a stripe: 16 to 4194304.
    pub stripe: u32,
    /// The bytes of a frame: 16 to 65536.
    pub frame: u32,
    /// The frames of a zone: 1 to 4194304. All frames of all zones have at most 8589934592 bytes.
    pub frames: u32,
    /// The shards of a new container: 1 to 1999.
    pub shards: u32,
    /// How long a tag lives, in microseconds: 1 to 86400 seconds.
    pub tag_life: u64,
    /// How long a chain of stripes waits before it is collected, in microseconds: 1 to 604800 seconds.
    pub wait: u64,
    /// The bytes of the largest object: 1 to 5368709120.
    pub largest: u64,
    /// How many objects a shard has before more shards are wanted: 1 to 1000000000.
    pub threshold: u64,
}

impl Model for Settings {
    ghost use Rattle.realm_model.specs.Settings.{SettingsView, IsSettings};

    ghost Value = { SettingsView };

    ghost use Rattle.realm_model.specs.SettingsOf.{settings_view, settings_inside};

    ghost view = { settings_view };

    ghost invariant = { λ s. IsSettings (settings_view s) };

    ghost inverse = { settings_inside };
}

impl Settings {
    /// Settings of these numbers, where each is within its bounds: zones, bytes of a stripe, bytes of a
    /// frame, frames of a zone, shards of a new container, the life of a tag, the wait of a chain, the
    /// largest object, the threshold.
    pub fn new(
        zones: u8,
        stripe: u32,
        frame: u32,
        frames: u32,
        shards: u32,
        tag_life: u64,
        wait: u64,
        largest: u64,
        threshold: u64,
    ) -> Option<Settings>
        ensures made { IfSome result (λ s. s ≡ settings_of zones stripe frame frames shards tag_life wait largest threshold) }
        ensures bounds { IsSome result ↔ IsSettings (settings_of zones stripe frame frames shards tag_life wait largest threshold) }
    {
        let counts = is_between(1, 8, u64::from(zones))
            && is_between(16, 4_194_304, u64::from(stripe))
            && is_between(16, 65_536, u64::from(frame))
            && is_between(1, 4_194_304, u64::from(frames))
            && is_between(1, 1999, u64::from(shards));
        let spans = is_between(SECOND, 86_400 * SECOND, tag_life)
            && is_between(SECOND, 604_800 * SECOND, wait)
            && is_between(1, 5_368_709_120, largest)
            && is_between(1, 1_000_000_000, threshold);
        if !counts || !spans {
            return None;
        }
        if u64::from(frames) * u64::from(frame) * u64::from(zones) > Self::MOST_BYTES {
            return None;
        }
        Some(Settings {
            zones,
            stripe,
            frame,
            frames,
            shards,
            tag_life,
            wait,
            largest,
            threshold,
        })
    }

    /// Each realm has a zone 1. It does nothing: it tells it to the proofs of its callers.
    pub fn has_zone_one(&self)
        ensures { 1 ≤ self.now.zones }
    {
        let _zones = self.zones;
    }

    /// The most bytes that all frames of all zones may have.
    pub const MOST_BYTES: u64 = 8_589_934_592;
}

/// A second, in microseconds.
const SECOND: u64 = 1_000_000;

fn is_between(low: u64, high: u64, n: u64) -> bool
    ensures { IsTrue result ↔ IsBetween low high n }
{
    low <= n && n <= high
}
