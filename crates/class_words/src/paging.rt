//! Where a page of names begins, and the names that keys are.
ghost use Rattle.std.specs.Prelude.{◌≡◌};
ghost use Rattle.omap_pages.specs.Rows.{IsInOrder};
ghost use Rattle.object_pool.specs.Places.{rows_of};
ghost use Rattle.class_words.specs.Pages.{StartsAt, top};
ghost use Rattle.class_words.specs.Shards.{IsObjectName};

use object_pool::{Bytes, Place};
use object_words::ObjectName;
use rgw_types::Text;
use std::cmp::Ordering;

/// Of a text and the greatest key of a log the later one: the rows above it are those of the names above
/// the text. The text is any bytes.
pub fn later_of<'a>(after: &'a [u8], last: &'a [u8]) -> &'a [u8]
    requires { last.now ≡ top }
    ensures { StartsAt after.now result.now }
{
    match after.cmp(last) {
        Ordering::Less => last,
        Ordering::Equal | Ordering::Greater => after,
    }
}

/// Looks at a row, which shows that the rows of the object stand in the order of their keys.
pub fn look_up(place: &Place<'_>, key: &[u8])
    ensures { IsInOrder (rows_of place.now).rows }
{
    let _row = place.row(key);
}

/// The name that a key is, in the key's own memory.
pub fn name_in(key: Bytes) -> ObjectName
    requires { IsObjectName key }
    ensures { result ≡ key }
{
    // A name is text, so it is not tested again.
    let text = unsafe { String::from_utf8_unchecked(key.into_vec()) };
    ObjectName::new(Text::from_string(text)).unwrap()
}
