ghost use Rattle.std.specs.Prelude.{◌≡◌};
ghost use Rattle.object_words.specs.Conditions.{fails};

use object_words::{Conditions, etag_digits, meets};

/// Whether If-Match or If-None-Match fails on the ETag of what is there (RFC 9110, sections 13.1.1 and
/// 13.1.2).
pub(crate) fn fails(when: &Conditions, etag: Option<[u8; 16]>) -> bool
    ensures { result ≡ fails when.now etag }
{
    match etag {
        None => when.matches.is_some(),
        Some(etag) => {
            let digits = etag_digits(&etag);
            let fails_match = match &when.matches {
                None => false,
                Some(rule) => !meets(rule, &digits),
            };
            let fails_none = match &when.none {
                None => false,
                Some(rule) => meets(rule, &digits),
            };
            fails_match || fails_none
        }
    }
}
