// Where keys are in leaves whose rows are in order of their keys.
ghost use Rattle.std.specs.Prelude.{◌≡◌, ◌<◌, length, IsSome, IfOk, IfErr};
ghost use Rattle.std.specs.FinMap.Entries.{find};
ghost use Rattle.std.specs.Ordering.{is_lt, is_le};
ghost use Rattle.omap_pages.specs.Leaves.{flat, position, IsPlace, IsRow};
ghost use Rattle.omap_pages.specs.Places.{AreOrdered, IsAt, IsGapFor, Parts};
ghost use Rattle.omap_pages.specs.Rows.{key_cmp};

use crate::leaf::Leaf;
use crate::place::Place;
use byte_order::head_of;

// The place of the key, or the place where it would go.
pub(crate) fn search(leaves: &[Leaf], key: &[u8]) -> Result<Place, Place>
    requires { AreOrdered leaves.now }
    ensures found { IfOk result (λ place.
        IsAt (flat leaves.now) key.now (position leaves.now place)) }
    ensures row { IfOk result (IsRow leaves.now) }
    ensures absent { IfErr result (λ place.
        IsGapFor (flat leaves.now) key.now (position leaves.now place)) }
    ensures place { IfErr result (IsPlace leaves.now) }
    ensures leaf { IfErr result (λ place.
        0 < length leaves.now → place.leaf < length leaves.now) }
{
    let head = head_of(key);
    match leaves.binary_search_by(|leaf| leaf.cmp_first_key(key, head)) {
        Ok(leaf) => Ok(Place { leaf, row: 0 }),
        Err(0) => Err(Place { leaf: 0, row: 0 }),
        Err(above) => {
            let leaf = above - 1;
            match leaves[leaf].search(key, head) {
                Ok(row) => Ok(Place { leaf, row }),
                Err(row) => Err(Place { leaf, row }),
            }
        }
    }
}

// The place of a key that is there.
pub(crate) fn place_of(leaves: &[Leaf], key: &[u8]) -> Place
    requires ordered { AreOrdered leaves.now }
    requires there { IsSome (find key_cmp key.now (flat leaves.now)) }
    ensures at { IsAt (flat leaves.now) key.now (position leaves.now result) }
    ensures row { IsRow leaves.now result }
{
    match search(leaves, key) {
        Ok(place) => place,
        Err(_) => unreachable!(),
    }
}

// The place where a key that is not there would go.
pub(crate) fn gap_for(leaves: &[Leaf], key: &[u8]) -> Place
    requires ordered { AreOrdered leaves.now }
    requires absent { find key_cmp key.now (flat leaves.now) ≡ None }
    ensures gap { IsGapFor (flat leaves.now) key.now (position leaves.now result) }
    ensures place { IsPlace leaves.now result }
{
    match search(leaves, key) {
        Ok(_) => unreachable!(),
        Err(place) => place,
    }
}

// The place of the first key that is not below this one.
pub(crate) fn start_from(leaves: &[Leaf], key: &[u8]) -> Place
    requires { AreOrdered leaves.now }
    ensures { Parts (λ k. is_le (key_cmp key.now k)) leaves.now result }
{
    match search(leaves, key) {
        Ok(place) | Err(place) => place,
    }
}

// The place of the first key above this one.
pub(crate) fn start_after(leaves: &[Leaf], key: &[u8]) -> Place
    requires { AreOrdered leaves.now }
    ensures { Parts (λ k. is_lt (key_cmp key.now k)) leaves.now result }
{
    match search(leaves, key) {
        Ok(place) => Place {
            leaf: place.leaf,
            row: place.row + 1,
        },
        Err(place) => place,
    }
}
