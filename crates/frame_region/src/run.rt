ghost use Rattle.std.specs.Prelude.{◌≡◌};

use std::marker::Model;

/// A run of frames that was taken from a region, which has nothing to release it by itself: where it is
/// let go and not passed to `Region::give`, its frames stay taken.
#[derive(Debug, Drop)]
pub struct FrameRun {
    pub(crate) first: u32,
    pub(crate) count: u32,
}

impl Model for FrameRun {
    ghost use Rattle.frame_region.specs.Region.{Run};

    ghost Value = { Run };

    ghost view = { λ r. record { first = r.first; count = r.count } };
}

impl FrameRun {
    /// The number of its first frame.
    pub fn first(&self) -> u32
        ensures { result ≡ self.now.first }
    {
        self.first
    }
}
