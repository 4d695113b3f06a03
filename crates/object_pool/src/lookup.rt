ghost use Rattle.std.specs.Prelude.{◌≡◌, Some, IsSome};
ghost use Rattle.std.specs.Map.{lookup};
ghost use Rattle.object_pool.specs.Objects.{is_key};

use crate::object::Stored;
use crate::shelf::Shelf;
use rgw_types::Key;

// What is kept under a key that has something.
pub(crate) fn stored_at<'a>(objects: &'a Shelf, number: usize, key: &Key) -> &'a Stored
    requires { IsSome (lookup (is_key key.now) objects.now) }
    ensures { lookup (is_key key.now) objects.now ≡ Some result.now }
{
    objects.get(number, key).unwrap()
}
