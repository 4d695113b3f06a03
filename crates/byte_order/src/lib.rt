//! How strings of bytes compare, eight bytes at a time.
#![tactic(auto)]

mod head;

ghost use Rattle.std.specs.Prelude.{◌≡◌};
ghost use Rattle.std.specs.Ordering.{nat_cmp};
ghost use Rattle.std.specs.Cmp.Lexicographic.{slice_cmp};

pub use head::head_of;
use head::word_at;
use std::cmp::Ordering;

/// How two strings compare: by the first byte that differs, and where one begins the other by
/// their lengths. The kit's comparison of slices goes byte by byte; this one takes eight at a
/// time, of which the last may overlap those before, so that no byte is left over.
pub fn compare(one: &[u8], other: &[u8]) -> Ordering
    ensures { result ≡ slice_cmp nat_cmp one.now other.now }
{
    let both = one.len().min(other.len());
    if both < 8 {
        return one.cmp(other);
    }
    let mut at = 0;
    while at < both {
        let from = at.min(both - 8);
        let (left, right) = (word_at(one, from), word_at(other, from));
        if left != right {
            return left.cmp(&right);
        }
        at = from + 8;
    }
    one.len().cmp(&other.len())
}
