//! Laws of the definitions: the functions here do nothing.
ghost use Rattle.std.specs.Prelude.{◌≡◌, ℕ, List, true};
ghost use Rattle.rgw_types.specs.Pairs.{is_risen, value_of};
ghost use Rattle.task_container.specs.Rows.{merged, value_after};

/// Metadata with what was sent is what a map makes of it: each name has the value that was sent of it, if that has a
/// byte; a name of which nothing was sent has what it had. The pairs rise by name.
pub fn metadata_is_merged_as_a_map()
    ensures values { (kept sent : List (List ℕ × List ℕ)) (name : List ℕ)
        → is_risen kept ≡ true → is_risen sent ≡ true
        → value_of (merged kept sent) name ≡ value_after (value_of kept name) (value_of sent name) }
    ensures risen { (kept sent : List (List ℕ × List ℕ))
        → is_risen kept ≡ true → is_risen sent ≡ true → is_risen (merged kept sent) ≡ true }
{}
