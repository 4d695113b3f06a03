ghost use Rattle.std.specs.Prelude.{◌≡◌, ◌+◌, ◌<◌, ◌^◌, ◌↔◌, ◌⊎◌, ℕ, IsTrue};
ghost use Rattle.rgw_types.specs.declared.stamp.Stamp.{Stamp as StampOf};
ghost use Rattle.rgw_types.specs.Stamps.{IsEarlier, stamp_above};

/// When a change was made and in which zone: the order of changes of one name.
/// The moment counts first, in microseconds since 1970, and then the zone.
#[derive(Clone, Copy, Debug, PartialEq, Eq, PartialOrd, Ord)]
pub struct Stamp {
    pub micros: u64,
    pub zone: u8,
}

impl Stamp {
    /// The stamp of a change in a zone at a moment, above the stamp before it. A moment stops at the
    /// greatest `u64`.
    pub fn above(before: Option<Stamp>, moment: u64, zone: u8) -> Stamp
        ensures { result ≡ stamp_above before moment zone }
    {
        let micros = match before {
            None => moment,
            Some(stamp) => moment.max(stamp.micros.saturating_add(1)),
        };
        Stamp { micros, zone }
    }

    /// Whether this change was before that one.
    pub fn is_earlier(&self, other: &Stamp) -> bool
        ensures { IsTrue result ↔ IsEarlier self.now other.now }
    {
        self < other
    }
}

/// Of two different stamps just one is the earlier, and an earlier one stays so through a third.
pub fn stamps_are_in_one_order()
    ensures total { (a b : StampOf) → IsEarlier a b ⊎ ((a ≡ b) ⊎ IsEarlier b a) }
    ensures one_way { (a b : StampOf) → IsEarlier a b → ¬ (IsEarlier b a) }
    ensures not_itself { (a : StampOf) → ¬ (IsEarlier a a) }
    ensures through { (a b c : StampOf) → IsEarlier a b → IsEarlier b c → IsEarlier a c }
{}
