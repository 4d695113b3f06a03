// What the definitions give at values that were counted by hand, as laws.
ghost use Rattle.std.specs.Prelude.{◌≡◌, ◌≢◌, ◌∷◌, [], take, codes};
ghost use Rattle.rgw_types.specs.Stripes.{ManifestView};
ghost use Rattle.manifest.specs.Layouts.{encoding};
ghost use Rattle.manifest.specs.Ranges.{parts_of, AreContents};

/// The bytes of an object of 17 bytes in stripes of 16.
const WRITTEN: [u8; 21] = [
    1, 0, 0, 0, 0, 0, 0, 0, 5, 0, 0, 0, 16, 0, 0, 0, 0, 0, 0, 0, 17,
];

/// How a manifest is written, and that its first 20 bytes alone are none.
pub fn manifests_are_written_so()
    ensures written { encoding (record { write = 5; stripe = 16; size = 17 }) ≡ WRITTEN }
    ensures cut { (m : ManifestView) → encoding m ≢ take 20 WRITTEN }
{}

/// Ranges of 26 bytes that lie in a head of 16 bytes and a tail of 10.
pub fn ranges_are_cut_so()
    ensures contents { AreContents (record { write = 5; stripe = 16; size = 26 }) (codes "abcdefghijklmnop" ∷ codes "qrstuvwxyz" ∷ []) }
    ensures across { parts_of (record { write = 5; stripe = 16; size = 26 }) 15 2 ≡
        record { part = 0; start = 15; count = 1 } ∷ record { part = 1; start = 0; count = 1 } ∷ [] }
    ensures last { parts_of (record { write = 5; stripe = 16; size = 26 }) 25 1 ≡
        record { part = 1; start = 9; count = 1 } ∷ [] }
    ensures whole { parts_of (record { write = 5; stripe = 16; size = 26 }) 0 26 ≡
        record { part = 0; start = 0; count = 16 } ∷ record { part = 1; start = 0; count = 10 } ∷ [] }
    ensures head { parts_of (record { write = 5; stripe = 16; size = 26 }) 0 16 ≡
        record { part = 0; start = 0; count = 16 } ∷ [] }
    ensures empty { parts_of (record { write = 5; stripe = 16; size = 26 }) 16 0 ≡ [] }
{}
