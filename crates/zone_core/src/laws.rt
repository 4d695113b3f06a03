//! Laws of the definitions: the functions here do nothing.
ghost use Rattle.std.specs.Prelude.{◌≢◌, ℕ, ◌+◌};
ghost use Rattle.object_pool.specs.Objects.{PoolView};
ghost use Rattle.realm_model.specs.Ops.{zone_of};
ghost use Rattle.realm_model.specs.Settings.{SettingsView};
ghost use Rattle.realm_model.specs.States.{State, opening, touched};
ghost use Rattle.realm_model.specs.Steps.{touch_of};
ghost use Rattle.realm_model.specs.declared.op.Op.{Op as OpOf};
ghost use Rattle.zone_core.specs.Bounds.{AreSmallBy, FitsOp};
ghost use Rattle.zone_core.specs.Stands.{Stands, new_pool};

/// A new pool has the objects of a zone before the first event, which are none.
pub fn a_new_pool_has_the_opening()
    ensures { (settings : SettingsView) (zone : ℕ) → Stands settings zone (new_pool settings) (opening settings) }
{}

/// An operation on one zone leaves the objects of each other zone.
pub fn operations_keep_other_zones()
    ensures { (settings : SettingsView) (zone : ℕ) (pool : PoolView) (st : State) (op : OpOf)
        → zone_of op ≢ zone → Stands settings zone pool st
        → Stands settings zone pool (touched settings st (touch_of settings st op)) }
{}

/// The objects of a zone grow by at most so much with each event, legal or not.
pub fn events_leave_room()
    ensures opening { (settings : SettingsView) (zone : ℕ) → AreSmallBy 0 zone (opening settings) }
    ensures event { (settings : SettingsView) (st : State) (op : OpOf) (zone : ℕ)
        → FitsOp op → ((z : ℕ) → AreSmallBy st.count z st)
        → AreSmallBy (st.count + 1) zone (touched settings st (touch_of settings st op)) }
{}
