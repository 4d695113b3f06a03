//! Listings that were worked out by hand: each function here does nothing and is such listings.
ghost use Rattle.std.specs.Prelude.{◌≡◌, codes, true, false, ◌∷◌, []};
ghost use Rattle.list_words.specs.declared.row.ListedRow.TheVariants.{Subdir};
ghost use Rattle.list_words.specs.Listings.{rows_of, in_scope, is_past};
ghost use Rattle.list_words.specs.KnownListings.{listed, all, with_subdirs, slashes, deeper};

/// Names with a slash in a directory, and one beside it.
pub fn names_with_slashes_are_listed_so()
    ensures all { rows_of all slashes ≡ listed (codes "a/1") ∷ listed (codes "a/2") ∷ listed (codes "b") ∷ [] }
    ensures subdirs { rows_of with_subdirs slashes ≡ Subdir (codes "a/") ∷ listed (codes "b") ∷ [] }
    ensures one { rows_of (record with_subdirs { limit = 1 }) slashes ≡ Subdir (codes "a/") ∷ [] }
    ensures none { rows_of (record with_subdirs { limit = 0 }) slashes ≡ [] }
    ensures marker { rows_of (record with_subdirs { marker = codes "a/" }) slashes ≡ listed (codes "b") ∷ [] }
    ensures end { rows_of (record with_subdirs { end_marker = codes "b" }) slashes ≡ Subdir (codes "a/") ∷ [] }
    ensures many { rows_of (record all { limit = 20000 }) slashes ≡ listed (codes "a/1") ∷ listed (codes "a/2") ∷ listed (codes "b") ∷ [] }
    ensures itself { rows_of (record all { marker = codes "a/1"; end_marker = codes "b" }) slashes ≡ listed (codes "a/2") ∷ [] }
{}

/// Names below a prefix, of which one has a further slash, and a delimiter of more than one character.
pub fn names_below_a_prefix_are_listed_so()
    ensures prefix { rows_of (record all { prefix = codes "a/" }) deeper
        ≡ listed (codes "a/b/1") ∷ listed (codes "a/b/2") ∷ listed (codes "a/c") ∷ [] }
    ensures below { rows_of (record with_subdirs { prefix = codes "a/" }) deeper
        ≡ Subdir (codes "a/b/") ∷ listed (codes "a/c") ∷ [] }
    ensures letter { rows_of (record with_subdirs { prefix = codes "a" }) deeper
        ≡ listed (codes "a") ∷ Subdir (codes "a/") ∷ Subdir (codes "ab/") ∷ [] }
    ensures longer { rows_of (record all { delimiter = codes "/b/" }) deeper
        ≡ listed (codes "a") ∷ Subdir (codes "a/b/") ∷ listed (codes "a/c") ∷ listed (codes "ab/1") ∷ listed (codes "b") ∷ [] }
    ensures past { is_past (record all { prefix = codes "a/" }) (codes "ab/1") ≡ true }
    ensures not_past { is_past (record all { prefix = codes "a/" }) (codes "a") ≡ false }
    ensures marker { in_scope (record with_subdirs { marker = codes "a/" }) (codes "a/b/1") ≡ false }
{}
