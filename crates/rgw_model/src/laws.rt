// What the definitions promise by themselves. Each law is the contract of a function that does nothing.
ghost use Rattle.std.specs.Prelude.{◌≡◌, ◌+◌, ◌<◌, ◌^◌, ℕ, Some};
ghost use Rattle.rgw_model.specs.declared.slot.Slot.{Slot as SlotOf};
ghost use Rattle.rgw_types.specs.declared.stamp.Stamp.{Stamp as StampOf};
ghost use Rattle.rgw_types.specs.Stamps.{IsEarlier};
ghost use Rattle.rgw_model.specs.Stamps.{stamp_of, next_stamp};

/// A change is stamped later than what it changes, as long as moments can rise.
pub fn a_change_is_stamped_later()
    ensures { (slot : SlotOf) (before : StampOf) (moment zone : ℕ)
        → stamp_of slot ≡ Some before → before.micros + 1 < 2 ^ 64
        → IsEarlier before (next_stamp slot moment zone) }
{}
