ghost use Rattle.std.specs.Prelude.{◌≡◌, ℕ, List, filter, length, map};
ghost use Rattle.std.specs.List.{concat};
ghost use Rattle.rgw_types.specs.Stripes.{ManifestView, IsManifest};
ghost use Rattle.manifest.specs.Layouts.{encoding};
ghost use Rattle.manifest.specs.Ranges.{has_bytes, part_numbers, parts_of, whole_part, AreContents};

/// Bytes are the encoding of one manifest at most.
pub fn a_manifest_has_one_spelling()
    ensures { (a b : ManifestView) → IsManifest a → IsManifest b → encoding a ≡ encoding b → a ≡ b }
{}

/// The whole range of an object has each part that is not empty, from its first byte to its last, and the
/// contents of the parts are as many bytes as the object has.
pub fn whole_objects_are_all_their_parts()
    ensures parts { (m : ManifestView) → IsManifest m → parts_of m 0 m.size ≡ filter has_bytes (map (whole_part m) (part_numbers m)) }
    ensures size { (m : ManifestView) → IsManifest m → (contents : List (List ℕ)) → AreContents m contents → length (concat contents) ≡ m.size }
{}
